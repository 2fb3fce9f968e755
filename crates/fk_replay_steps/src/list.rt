//! Where the operations of a flat list go on.

ghost use Rattle.std.specs.Prelude.{◌≡◌, ◌^◌, ◌<◌, List, ℕ, [], length, IfSome, option_map};
ghost use Rattle.fk_core.specs.Next as n;
ghost use Rattle.fk_replay_steps.specs.Steps.{step_at};

use fk_core::CoreOp;
use fk_core_list::follows;
use fk_meaning_operation::Operation;

/// An operation that is due: its index in the list, its site and its target.
#[derive(Clone, Copy)]
pub struct Due {
    pub operation: Operation,
    pub at: u32,
    pub site: u32,
    pub target: u32,
}

/// The index to which jumps lead from an index on.
fn landing(ops: &[CoreOp], from: u32) -> u32
    ensures { result ≡ n.landing ops.now from }
{
    let mut at = from;
    for _ in 0..ops.len() {
        match ops.get(at as usize) {
            Some(op) if op.is_jump() => at = op.target,
            _ => return at,
        }
    }
    at
}

/// The first operation to which jumps lead from an index, if there is one.
pub fn due_at(ops: &[CoreOp], from: u32) -> Option<Due>
    // This holds whatever calls wait.
    ensures due { (callers : List ℕ) →
        option_map (step_at ops.now callers) result ≡ n.next ops.now (n.position from callers) }
    ensures within { IfSome result (λ due. due.at < length ops.now) }
{
    let at = landing(ops, from);
    let op = ops.get(at as usize)?;
    Some(Due {
        operation: op.operation()?,
        at,
        site: op.site,
        target: op.target,
    })
}

/// The index where an operation goes on, if it neither begins nor ends a call.
pub(crate) fn next_index(ops: &[CoreOp], due: Due, onward: bool) -> u32
    requires within { due.at < length ops.now }
    requires few { length ops.now < 2 ^ 32 }
    ensures { result ≡ (n.follows ops.now due.operation due.at due.target [] onward).at }
{
    follows(ops, due.operation, due.at as usize, due.target, onward) as u32
}
