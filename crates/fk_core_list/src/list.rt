//! The operations of a list, and where each goes on.

ghost use Rattle.std.specs.Prelude.{◌≡◌, ◌<◌, ◌≤◌, [], length, slice_get};
ghost use Rattle.fk_core.specs.Next as n;

use fk_core::CoreOp;
use fk_meaning_operation::Operation;

/// The operation or jump at an index, if there is one.
pub fn op_at(ops: &[CoreOp], index: usize) -> Option<CoreOp>
    ensures { result ≡ slice_get ops.now index }
{
    match ops.get(index) {
        Some(op) => Some(*op),
        None => None,
    }
}

/// The index where an operation goes on, in a call for which no other waits.
pub fn follows(
    ops: &[CoreOp],
    operation: Operation,
    index: usize,
    target: u32,
    onward: bool,
) -> usize
    requires { index < length ops.now }
    ensures { result ≡ (n.follows ops.now operation index target [] onward).at }
{
    match operation {
        Operation::Leave { .. } | Operation::Halt => ops.len(),
        Operation::End => target as usize,
        Operation::Branch(_)
        | Operation::Begin
        | Operation::Split(_)
        | Operation::Shrink
        | Operation::Farm
        | Operation::Seq => if onward { index + 1 } else { target as usize },
        _ => index + 1,
    }
}

/// The index after the first jump from an index on, or the end of the list if there is none.
pub fn behind_jump(ops: &[CoreOp], index: usize) -> usize
    requires { index ≤ length ops.now }
    ensures jump { result ≡ n.behind_jump ops.now index }
    ensures within { result ≤ length ops.now }
{
    let mut end = index;
    'ops: while end < ops.len() {
        let op = ops[end];
        end += 1;
        if op.is_jump() {
            return end;
        }
    }
    end
}
