//! How many parts are open in a list.

ghost use Rattle.std.specs.Prelude.{◌≡◌, ◌<◌, ◌^◌, suc};
ghost use Rattle.fk_core.specs.Numbers.{operation_of};
ghost use Rattle.fk_core_levels.specs.Count as c;

use fk_core::CoreOp;
use fk_meaning_operation::Operation;

/// How many parts are open at an operation, if there were so many open after the one before it.
pub(crate) fn here(parts: u32, op: CoreOp) -> u32
    ensures { result ≡ c.here parts (operation_of op.kind op.number) }
{
    match op.operation() {
        Some(Operation::Resume) => parts.saturating_sub(1),
        _ => parts,
    }
}

/// How many are open after an operation at which so many are.
pub(crate) fn after(parts: u32, op: CoreOp) -> u32
    requires few { suc parts < 2 ^ 32 }
    ensures { result ≡ c.after parts (operation_of op.kind op.number) }
{
    match op.operation() {
        Some(Operation::Split(_)) => parts + 1,
        _ => parts,
    }
}

/// In how many parts the call is after an operation at which it is in so many.
pub(crate) fn inside(parts: u32, op: CoreOp) -> u32
    requires few { suc parts < 2 ^ 32 }
    ensures { result ≡ c.inside parts (operation_of op.kind op.number) }
{
    match op.operation() {
        Some(Operation::Begin | Operation::Split(_)) => parts + 1,
        _ => parts,
    }
}

/// Whether the call that begins runs after an operation.
pub(crate) fn opens(opening: bool, op: CoreOp) -> bool
    ensures { result ≡ c.opens opening op }
{
    if op.is_jump() {
        return false;
    }
    match op.operation() {
        Some(Operation::Enter(_)) => true,
        _ => opening,
    }
}
