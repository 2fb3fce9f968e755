//! Rounds.

ghost use Rattle.std.specs.Prelude.{◌≡◌, ◌+◌, ◌^◌, ◌<◌, ◌≤◌, map, length, Some, None};
ghost use Rattle.std.specs.Prelude.{IfOk};
ghost use Rattle.fk_tree.specs.View.{tree_of, processors};
ghost use Rattle.fk_meaning_state.specs.View.{setting_of};
ghost use Rattle.fk_meaning.specs.Round.{Round};
ghost use Rattle.fk_replay_text.specs.View.{range_of};
ghost use Rattle.fk_replay_text.specs.Rounds.{round_of};
ghost use Rattle.fk_replay_rounds.specs.Fits.{all_fit_below, AreThere};
ghost use Rattle.fk_replay_phases.specs.Present.{present, all_acting, numbers_of};
ghost use Rattle.fk_replay_phases.specs.Modes.{HaveModes};
ghost use Rattle.fk_replay_phases.specs.Joints.{joint_at};
ghost use Rattle.fk_replay_take.specs.Ranges.{AreRanges};
ghost use Rattle.fk_replay_run.specs.Steady.{IsSteady};
ghost use Rattle.fk_replay_run.specs.Runs.{IsRun, state_of};
ghost use Rattle.fk_replay_take.specs.Taken.{IsTaken, is_last_of};
ghost use Rattle.fk_replay_take.specs.Asked.{IsAsked, IsAskedAs, IsSomeAsked};

use crate::enlist::enlist;
use fk_core::CoreOp;
use fk_replay_arrivals::forget_all;
use fk_replay_phases::{Fault, all_fit, begin_all, dismiss, do_requests};
use fk_replay_run::Run;
use fk_replay_text::Acts;
use fk_replay_trees::{change_all, settle_all};
use std::alloc::AllocError;

/// What a round is.
#[derive(Clone, Copy)]
pub enum Outcome {
    Possible,
    /// It is stopped, by a fault.
    Stopped(Fault),
    NotPossible,
}

/// Does a round. After one that isn't possible the state is of no use.
pub fn take_round(run: &mut Run, ops: &[CoreOp], acts: &[Acts]) -> Result<Outcome, AllocError>
    requires few { length ops.now < 2 ^ 32 }
    requires run { IsRun run.old }
    requires ranges { AreRanges (processors run.old.tree) (map range_of acts.now) }
    requires steady { IsSteady ops.now (setting_of run.old.setting) (state_of run.old) }
    requires arrived { length run.old.arrived.items ≡ processors run.old.tree }
    requires given { (tree_of run.old.tree).given + 2 ^ 28 < 2 ^ 63 }
    ensures taken { IfOk result (IsTaken ops.now
        (round_of (processors run.old.tree) (map range_of acts.now)) run.old run.new) }
{
    match ask(run, ops, acts)? {
        Outcome::Possible => finish(run, ops),
        Outcome::Stopped(first) => Ok(stop(run, ops, first)),
        Outcome::NotPossible => Ok(Outcome::NotPossible),
    }
}

/// Does the local operations and the requests of a round. It tells what the round is as far as
/// these decide it.
fn ask(run: &mut Run, ops: &[CoreOp], acts: &[Acts]) -> Result<Outcome, AllocError>
    requires few { length ops.now < 2 ^ 32 }
    requires run { IsRun run.old }
    requires ranges { AreRanges (processors run.old.tree) (map range_of acts.now) }
    requires steady { IsSteady ops.now (setting_of run.old.setting) (state_of run.old) }
    ensures asked { IfOk result (IsAskedAs ops.now
        (round_of (processors run.old.tree) (map range_of acts.now)) run.old run.new) }
{
    enlist(&run.tree, acts, &mut run.counts, &mut run.acting)?;
    let can = begin_all(run.setting, ops, &run.acting, &run.counts, &mut run.actors)?;
    if !can {
        return Ok(Outcome::NotPossible);
    }
    match do_requests(run.alloc, ops, &run.acting, &mut run.store, &mut run.actors)? {
        Some(fault) => Ok(Outcome::Stopped(fault)),
        None => Ok(Outcome::Possible),
    }
}

/// Whether a fault among the requests stops the round, or the round is not possible.
fn stop(run: &Run, ops: &[CoreOp], fault: Fault) -> Outcome
    requires few { length ops.now < 2 ^ 32 }
    requires asked { IsSomeAsked ops.now run.now (Some fault) }
    // This holds whatever round it is, and whatever run was before it.
    ensures { (round : Round) (old : Run) → IsAsked ops.now round old run.now (Some fault)
        → IsTaken ops.now round old run.now result }
{
    if !is_last(run, fault.processor) {
        return Outcome::NotPossible;
    }
    if !fit(run, ops, fault.processor) {
        return Outcome::NotPossible;
    }
    Outcome::Stopped(fault)
}

/// Does the steps of the tree in a round without a fault, if all who are in it fit together.
fn finish(run: &mut Run, ops: &[CoreOp]) -> Result<Outcome, AllocError>
    requires few { length ops.now < 2 ^ 32 }
    requires asked { IsSomeAsked ops.now run.old None }
    requires arrived { length run.old.arrived.items ≡ processors run.old.tree }
    requires given { (tree_of run.old.tree).given + 2 ^ 28 < 2 ^ 63 }
    // This holds whatever round it is, and whatever run was before it.
    ensures { (round : Round) (old : Run) → IsAsked ops.now round old run.old None
        → IfOk result (IsTaken ops.now round old run.new) }
{
    if !fit(run, ops, u32::MAX) {
        return Ok(Outcome::NotPossible);
    }
    change_all(run.alloc, &run.acting, &run.actors, &mut run.tree)?;
    forget_all(&run.acting, &run.actors, &mut run.arrived);
    settle_all(ops, &run.acting, &run.tree, &mut run.actors)?;
    dismiss(&run.acting, &mut run.counts);
    Ok(Outcome::Possible)
}

/// Whether a processor is the last one of the round.
fn is_last(run: &Run, processor: u32) -> bool
    ensures { result ≡ is_last_of processor (numbers_of run.now.acting.items) }
{
    match run.acting.last() {
        Some(acting) => acting.number == processor,
        None => false,
    }
}

/// Whether all who act fit together, if those above a last one act wherever they are needed.
fn fit(run: &Run, ops: &[CoreOp], last: u32) -> bool
    requires counts { length run.now.counts.items ≡ processors run.now.tree }
    requires actors { length run.now.actors.items ≡ processors run.now.tree }
    requires acting { run.now.acting.items
        ≡ all_acting (tree_of run.now.tree) (present 0 run.now.counts.items) }
    requires modes { HaveModes (tree_of run.now.tree) run.now.actors.items }
    requires there { AreThere run.now.counts.items last
        (joint_at ops.now run.now.actors.items last)
        (tree_of run.now.tree) (processors run.now.tree) }
    ensures { result ≡ all_fit_below run.now.counts.items last
        (joint_at ops.now run.now.actors.items last)
        (tree_of run.now.tree) 0 run.now.counts.items }
{
    all_fit(ops, &run.tree, &run.counts, &run.actors, &run.acting, last)
}
