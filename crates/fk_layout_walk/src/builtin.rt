//! What calls of predeclared names do.

ghost use Rattle.std.specs.Prelude.{◌≡◌};
ghost use Rattle.fk_layout_walk.specs.Builtin.{builtin_by, multiprefix_or, one_operation};
ghost use Rattle.fk_layout_walk.specs.Builtin.{printing_or, request};

use crate::texts::is_spelled;
use fk_meaning_operation::{Multiprefix, Operation};

/// What a call of a predeclared name does.
#[derive(Clone, Copy)]
pub(crate) enum Builtin {
    /// `mpadd`, `mpmax`, `mpand` or `mpor`, on an address and a value.
    Multiprefix(Multiprefix),
    /// `groupsize`, which has no arguments.
    GroupSize,
    /// An operation on one argument. The flag tells whether the group first agrees on the argument.
    OnOne(bool, Operation),
}

// What a call of a multiprefix name does; `other` for every other name.
fn multiprefix_or(bytes: &[u8], other: Builtin) -> Builtin
    ensures { result ≡ multiprefix_or bytes.now other }
{
    if is_spelled(bytes, b"mpadd") {
        Builtin::Multiprefix(Multiprefix::MpAdd)
    } else if is_spelled(bytes, b"mpmax") {
        Builtin::Multiprefix(Multiprefix::MpMax)
    } else if is_spelled(bytes, b"mpand") {
        Builtin::Multiprefix(Multiprefix::MpAnd)
    } else if is_spelled(bytes, b"mpor") {
        Builtin::Multiprefix(Multiprefix::MpOr)
    } else {
        other
    }
}

// What a call of a printing name does; `other` for every other name.
fn printing_or(bytes: &[u8], other: Builtin) -> Builtin
    ensures { result ≡ printing_or bytes.now other }
{
    if is_spelled(bytes, b"putint") {
        Builtin::OnOne(false, Operation::PrintNumber)
    } else if is_spelled(bytes, b"putchar") {
        Builtin::OnOne(false, Operation::PrintByte)
    } else {
        other
    }
}

// What a call of a name that asks for memory does. Every name but `malloc` and `shmalloc` counts as
// `shalloc`.
fn request(bytes: &[u8]) -> Builtin
    ensures { result ≡ request bytes.now }
{
    if is_spelled(bytes, b"malloc") {
        Builtin::OnOne(false, Operation::Take)
    } else if is_spelled(bytes, b"shmalloc") {
        Builtin::OnOne(false, Operation::Heap)
    } else {
        Builtin::OnOne(true, Operation::Block)
    }
}

// What a call of a predeclared name does that isn't a multiprefix.
fn one_operation(bytes: &[u8]) -> Builtin
    ensures { result ≡ one_operation bytes.now }
{
    if is_spelled(bytes, b"groupsize") {
        Builtin::GroupSize
    } else {
        printing_or(bytes, request(bytes))
    }
}

/// What a call of a predeclared name does. A name that isn't predeclared counts as `shalloc`.
pub(crate) fn builtin_of(bytes: &[u8]) -> Builtin
    ensures { result ≡ builtin_by bytes.now }
{
    multiprefix_or(bytes, one_operation(bytes))
}
