//! Joint operations.

ghost use Rattle.std.specs.Prelude.{◌≡◌};
ghost use Rattle.fk_meaning_operation.specs.Kinds as kinds;
ghost use Rattle.fk_meaning.specs.Round.{same_joint};
ghost use Rattle.fk_replay_phases.specs.Joints.{joint_next};

use crate::actor::Actor;
use fk_core::CoreOp;
use fk_meaning_operation::{Joint, Operation};

/// What those who do an operation do together.
pub fn joint_of(operation: Operation) -> Joint
    ensures { result ≡ kinds.joint_of operation }
{
    match operation {
        Operation::Begin => Joint::Starting,
        Operation::Meet(false) => Joint::AtBarrier,
        Operation::Meet(true) => Joint::Closing,
        Operation::Resume => Joint::Resuming,
        _ => Joint::Alone,
    }
}

/// Whether two joint operations are the same.
pub(crate) fn is_same(joint: Joint, other: Joint) -> bool
    ensures { result ≡ same_joint joint other }
{
    match joint {
        Joint::Alone => other == Joint::Alone,
        Joint::Starting => other == Joint::Starting,
        Joint::AtBarrier => other == Joint::AtBarrier,
        Joint::Closing => other == Joint::Closing,
        Joint::Resuming => other == Joint::Resuming,
    }
}

/// The joint operation that a processor has taken, or of a processor above the last one the one
/// that is next.
pub(crate) fn joint_in(ops: &[CoreOp], actor: &Actor, above: bool) -> Joint
    ensures { result ≡ joint_next ops.now above actor.now }
{
    let due = if above {
        actor.runner.due(ops)
    } else {
        actor.taken
    };
    match due {
        Some(due) => joint_of(due.operation),
        None => Joint::Alone,
    }
}
