//! Processors at the beginning of a round.

ghost use Rattle.std.specs.Prelude.{◌≡◌, ◌^◌, ◌<◌, ◌≤◌, length, IfOk};
ghost use Rattle.fk_meaning_state.specs.View.{setting_of};
ghost use Rattle.fk_replay_steps.specs.Steps.{runner_of};
ghost use Rattle.fk_replay_phases.specs.Safe.{IsSafeRunner};
ghost use Rattle.fk_replay_phases.specs.Actors.{HasDoneOne, HasDoneLocals, HasBegun};

use fk_core::CoreOp;
use fk_meaning_operation::Class;
use fk_meaning_state::Setting;
use fk_replay_rounds::Mode;
use fk_replay_steps::{Due, Runner, class_of, do_local, is_onward};
use std::alloc::AllocError;

/// A processor, how the members of its node act, and the operation that it takes in the current
/// round and has not done yet.
#[derive(Drop)]
pub struct Actor {
    pub runner: Runner,
    pub mode: Mode,
    pub taken: Option<Due>,
}

/// Does the next operation of a processor if it is local, and says whether it is.
fn do_one(setting: Setting, ops: &[CoreOp], runner: &mut Runner) -> Result<bool, AllocError>
    requires few { length ops.now < 2 ^ 32 }
    requires safe { IsSafeRunner ops.now (setting_of setting) (runner_of runner.old) }
    ensures one { IfOk result
        (HasDoneOne ops.now (setting_of setting) runner.old runner.new) }
{
    let Some(due) = runner.due(ops) else {
        return Ok(false);
    };
    if class_of(due.operation) != Class::Local {
        return Ok(false);
    }
    let onward = is_onward(due.operation, &runner.processor);
    do_local(setting, due.operation, &mut runner.processor)?;
    runner.pass(ops, due, onward)?;
    Ok(true)
}

/// Does this many operations of a processor, and says whether all of them are local.
fn do_locals(
    setting: Setting,
    ops: &[CoreOp],
    count: u32,
    runner: &mut Runner,
) -> Result<bool, AllocError>
    requires few { length ops.now < 2 ^ 32 }
    requires safe { IsSafeRunner ops.now (setting_of setting) (runner_of runner.old) }
    ensures locals { IfOk result
        (HasDoneLocals ops.now (setting_of setting) count runner.old runner.new) }
{
    for done in 0..count {
        let did = do_one(setting, ops, runner)?;
        if !did {
            return Ok(false);
        }
    }
    Ok(true)
}

/// A processor does all but the last of its operations, takes the last one, and does it if it is
/// local. It is `false` if the processor can't be in a round with this count.
pub fn begin(
    setting: Setting,
    ops: &[CoreOp],
    count: u32,
    actor: &mut Actor,
) -> Result<bool, AllocError>
    requires few { length ops.now < 2 ^ 32 }
    requires some { 1 ≤ count }
    requires count { count ≤ 255 }
    requires untaken { actor.old.taken ≡ None }
    requires safe { IsSafeRunner ops.now (setting_of setting) (runner_of actor.old.runner) }
    ensures begun { IfOk result (HasBegun ops.now (setting_of setting) count actor.old actor.new) }
{
    let did = do_locals(setting, ops, count - 1, &mut actor.runner)?;
    if !did {
        return Ok(false);
    }
    let Some(due) = actor.runner.due(ops) else {
        return Ok(false);
    };
    if class_of(due.operation) == Class::Local {
        let last = do_one(setting, ops, &mut actor.runner)?;
        return Ok(last);
    }
    actor.taken = Some(due);
    Ok(true)
}
