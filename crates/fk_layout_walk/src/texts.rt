//! Names, and texts that are printed.

ghost use Rattle.std.specs.Prelude.{◌≡◌, ◌<◌, ℕ, bytes_eq, length};
ghost use Rattle.fk_meaning_forms.specs.Expressions as e;
ghost use Rattle.fk_meaning_forms.specs.Texts.{text_of, up_to_quote, escaped as escaped_by};
ghost use Rattle.fk_meaning_operation.specs.declared.operation.Operation.TheVariants as o;
ghost use Rattle.fk_layout_walk.specs.Known.{functions_of};
ghost use Rattle.fk_layout_walk.specs.Through.{through, Passes};

use crate::known::ProgramTables;
use crate::visitor::{Visitor, plain};
use fk_meaning_operation::Operation;

/// Whether a name has this spelling.
pub(crate) fn is_spelled(bytes: &[u8], name: &[u8]) -> bool
    ensures { result ≡ bytes_eq bytes.now name.now }
{
    bytes == name
}

/// `puts`: pushes and prints each byte of a text. `text` has its quotes.
#[tactic(auto, using(crate::proofs::Printed::short))]
pub(crate) fn put_bytes<V: Visitor>(known: &ProgramTables, visitor: &mut V, text: &[u8])
    ensures { Passes V.after V.counts (functions_of known.now) visitor.old visitor.new
        (e.put_bytes (text_of text.now)) }
{
    if text.is_empty() {
        return;
    }
    let mut left = &text[1..];
    while left.len() > 1 {
        left = put_next(visitor, left);
    }
}

// Pushes and prints the next byte of a text. Returns the rest of the text.
#[tactic(auto, using(crate::proofs::Printed::next_escaped, crate::proofs::Printed::next_byte))]
fn put_next<'s, V: Visitor>(visitor: &mut V, left: &'s [u8]) -> &'s [u8]
    requires { 1 < length left.now }
    ensures shorter { length result.now < length left.now }
    ensures put { (functions : (binding : ℕ) → e.Signature) (rest : e.Coded)
        → through V.after V.counts functions visitor.old
        (e.put_bytes (up_to_quote left.now) rest)
        ≡ through V.after V.counts functions visitor.new
        (e.put_bytes (up_to_quote result.now) rest) }
{
    if left[0] == b'\\' {
        put_byte(visitor, escaped(left[1]));
        &left[2..]
    } else {
        put_byte(visitor, left[0]);
        &left[1..]
    }
}

// Pushes and prints a byte.
fn put_byte<V: Visitor>(visitor: &mut V, byte: u8)
    ensures { (functions : (binding : ℕ) → e.Signature)
        → Passes V.after V.counts functions visitor.old visitor.new
        (λ rest. e.plain (o.Push byte) (e.plain o.PrintByte rest)) }
{
    plain(visitor, Operation::Push(u32::from(byte)));
    plain(visitor, Operation::PrintByte);
}

// The byte that an escape denotes: a backslash and this byte.
fn escaped(byte: u8) -> u8
    ensures { result ≡ escaped_by byte }
{
    match byte {
        b'n' => b'\n',
        b't' => b'\t',
        b'0' => 0,
        _ => byte,
    }
}
