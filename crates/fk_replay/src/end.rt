//! How a run ends.

ghost use Rattle.std.specs.Prelude.{◌≡◌, option_map, is_none};
ghost use Rattle.fk_meaning.specs.Processor.{Setting};
ghost use Rattle.fk_meaning.specs.Schedule.{all_done, stand_by};
ghost use Rattle.fk_core.specs.Next.{next};
ghost use Rattle.fk_replay_steps.specs.Steps.{runner_of};
ghost use Rattle.fk_replay_phases.specs.Actors.{runners_of, fault_of};
ghost use Rattle.fk_replay.specs.Replay.{stand_in};

use fk_core::CoreOp;
use fk_replay_phases::{Actor, Fault};

/// The status of a run after its schedule.
#[derive(Clone, Copy, PartialEq, Eq, Debug)]
pub enum End {
    Running,
    Finished,
    /// A fault at this site, of this processor.
    Faulted(u32, u32),
}

/// What a program prints under a schedule, and its status after it.
#[derive(Drop)]
pub struct Replayed {
    pub output: Vec<u8>,
    pub end: End,
}

/// Whether a processor has nothing left to do.
fn has_ended(ops: &[CoreOp], actor: &Actor) -> bool
    ensures { result ≡ is_none (next ops.now (runner_of actor.now.runner).left) }
{
    actor.runner.due(ops).is_none()
}

/// Whether no processor has anything left to do.
fn have_ended(ops: &[CoreOp], actors: &[Actor]) -> bool
    ensures { (setting : Setting)
        → result ≡ all_done (next ops.now) setting (runners_of actors.now) }
{
    actors.iter().all(|actor| has_ended(ops, actor))
}

/// How a run has ended. Its last round is stopped if there is a fault.
pub(crate) fn end_of(ops: &[CoreOp], actors: &[Actor], fault: Option<Fault>) -> End
    ensures { (setting : Setting) → stand_in result ≡ stand_by (next ops.now) setting
        (option_map (fault_of ops.now) fault) (runners_of actors.now) }
{
    match fault {
        Some(fault) => End::Faulted(fault.site, fault.processor),
        None if have_ended(ops, actors) => End::Finished,
        None => End::Running,
    }
}
