//! The run under the schedule of a trace.

ghost use Rattle.std.specs.Prelude.{◌≡◌, ◌+◌, ◌^◌, ◌<◌, ◌≤◌, false, [], map, length, None};
ghost use Rattle.std.specs.Prelude.{OnOk, IfOk, IfErr};
ghost use Rattle.fk_tree.specs.View.{tree_of, processors};
ghost use Rattle.fk_meaning_state.specs.View.{setting_of};
ghost use Rattle.fk_meaning.specs.Round.{Round};
ghost use Rattle.fk_replay_text.specs.View.{range_of, moment_of};
ghost use Rattle.fk_replay_text.specs.Rounds.{round_of};
ghost use Rattle.fk_replay_schedules.specs.Paced.{Leaves};
ghost use Rattle.fk_replay_schedules.specs.Moments.{AreMoments};
ghost use Rattle.fk_replay_steps.specs.Pace.{IsLeastLate, since};
ghost use Rattle.fk_replay_phases.specs.Present.{present, numbers_of};
ghost use Rattle.fk_replay_take.specs.Ranges.{AreRanges};
ghost use Rattle.fk_replay_run.specs.Steady.{IsSteady};
ghost use Rattle.fk_replay_run.specs.Runs.{IsRun, state_of};
ghost use Rattle.fk_replay.specs.Passed.{TellsLate, AreOnTime, TellsFirstLate};
ghost use Rattle.fk_replay_run.specs.Told.{KnowsAbout};
ghost use Rattle.fk_replay.specs.Passed.{HasTaken, IsUntaken, HasPassed, IsRefused, IsSteadyBehind};
ghost use Rattle.fk_replay.specs.Followed.{AreSteady, HasDone, HasFollowed, IsUnlawful};
ghost use Rattle.fk_replay.specs.Replay.{IsOfText, IsOrderly, IsSafe, IsAnswer, schedule_in};

use crate::end::{Replayed, end_of};
use fk_core::CoreOp;
use fk_replay_phases::{Acting, Fault};
use fk_replay_run::Run;
use fk_replay_steps::Pace;
use fk_replay_take::{Outcome, take_round};
use fk_replay_text::{Acts, ReplayFault, Trace};
use std::alloc::{AllocError, Global};

/// A round that is late for nobody.
fn on_time(pace: &Pace, round: u32) -> Result<(), ReplayFault>
    ensures on_time { OnOk result (IsLeastLate pace.now round None) }
    ensures late { IfErr result (TellsLate pace.now round) }
{
    match pace.late(round) {
        Some(processor) => Err(ReplayFault::Pace(round, processor)),
        None => Ok(()),
    }
}

/// The rounds behind a round, up to a last one, in which nobody acts.
fn pass_empty(pace: &Pace, behind: u32, last: u32) -> Result<(), ReplayFault>
    ensures on_time { OnOk result (AreOnTime pace.now behind last) }
    ensures late { IfErr result (TellsFirstLate pace.now behind last) }
{
    if pace.is_idle() {
        return Ok(());
    }
    for passed in behind..last {
        on_time(pace, passed + 1)?;
    }
    Ok(())
}

/// Those who are in a round are no longer absent.
fn leave(acting: &[Acting], pace: &mut Pace)
    ensures many { length pace.new ≡ length pace.old }
    ensures leaves { (round : Round) → numbers_of acting.now ≡ present 0 round
        → Leaves round (since pace.old) (since pace.new) }
{
    for member in acting {
        pace.end(member.number);
    }
}

/// A round, with its fault if it is the last one and stopped.
fn do_round(
    run: &mut Run,
    ops: &[CoreOp],
    round: u32,
    acts: &[Acts],
    is_last: bool,
) -> Result<Option<Fault>, ReplayFault>
    requires few { length ops.now < 2 ^ 32 }
    requires run { IsRun run.old }
    requires ranges { AreRanges (processors run.old.tree) (map range_of acts.now) }
    requires steady { IsSteady ops.now (setting_of run.old.setting) (state_of run.old) }
    requires given { (tree_of run.old.tree).given + 2 ^ 28 < 2 ^ 63 }
    requires arrived { length run.old.arrived.items ≡ processors run.old.tree }
    ensures taken { IfOk result (HasTaken ops.now
        (round_of (processors run.old.tree) (map range_of acts.now)) round is_last
        run.old run.new) }
    ensures refused { IfErr result (IsUntaken ops.now
        (round_of (processors run.old.tree) (map range_of acts.now)) round is_last run.old) }
{
    match take_round(run, ops, acts)? {
        Outcome::Possible => Ok(None),
        Outcome::Stopped(fault) if is_last => Ok(Some(fault)),
        Outcome::Stopped(_) | Outcome::NotPossible => Err(ReplayFault::NotPossible(round)),
    }
}

/// A round that is late for nobody. Unless it is the last one, it is told who could act after it.
fn pass_round(
    run: &mut Run,
    ops: &[CoreOp],
    round: u32,
    acts: &[Acts],
    is_last: bool,
) -> Result<Option<Fault>, ReplayFault>
    requires few { length ops.now < 2 ^ 32 }
    requires run { IsRun run.old }
    requires ranges { AreRanges (processors run.old.tree) (map range_of acts.now) }
    requires steady { IsSteady ops.now (setting_of run.old.setting) (state_of run.old) }
    requires behind { IsSteadyBehind ops.now
        (round_of (processors run.old.tree) (map range_of acts.now)) run.old }
    requires given { (tree_of run.old.tree).given + 2 ^ 28 < 2 ^ 63 }
    requires knows { KnowsAbout ops.now run.old [] }
    requires round { is_last ≡ false → round + 1 < 2 ^ 32 }
    ensures passed { IfOk result (HasPassed ops.now
        (round_of (processors run.old.tree) (map range_of acts.now)) round is_last
        run.old run.new) }
    ensures refused { IfErr result (IsRefused ops.now
        (round_of (processors run.old.tree) (map range_of acts.now)) round is_last run.old) }
{
    let fault = do_round(run, ops, round, acts, is_last)?;
    leave(&run.acting, &mut run.pace);
    on_time(&run.pace, round)?;
    if !is_last {
        run.tell(ops, round + 1);
    }
    Ok(fault)
}

/// All rounds of a trace. It gives the fault of the last round if that is stopped.
fn follow(run: &mut Run, ops: &[CoreOp], trace: &Trace) -> Result<Option<Fault>, ReplayFault>
    requires few { length ops.now < 2 ^ 32 }
    requires moments { AreMoments trace.now.harts trace.now.cycles 0
        (map moment_of trace.now.moments.items) }
    requires harts { processors run.old.tree ≡ trace.now.harts }
    requires steady { AreSteady ops.now (setting_of run.old.setting) (schedule_in trace.now)
        (state_of run.old) }
    requires first { HasDone ops.now (setting_of run.old.setting) (schedule_in trace.now)
        (state_of run.old) 0 run.old }
    ensures followed { IfOk result (HasFollowed ops.now (setting_of run.old.setting)
        (schedule_in trace.now) (state_of run.old) run.new) }
    ensures unlawful { IfErr result (IsUnlawful ops.now (setting_of run.old.setting)
        (schedule_in trace.now) (state_of run.old)) }
{
    let mut behind = 0;
    for moment in &trace.moments {
        pass_empty(&run.pace, behind, moment.cycle - 1)?;
        behind = moment.cycle;
        let is_last = behind == trace.cycles;
        if let Some(fault) = pass_round(run, ops, behind, &moment.acts, is_last)? {
            return Ok(Some(fault));
        }
    }
    if behind < trace.cycles {
        pass_empty(&run.pace, behind, trace.cycles)?;
    }
    Ok(None)
}

/// The bytes of a text.
fn copied(alloc: Global, bytes: &[u8]) -> Result<Vec<u8>, AllocError>
    ensures { IfOk result (λ v. v.items ≡ bytes.now) }
{
    bytes.iter().copied().collect(alloc)
}

/// The run of a flat list, whose `main` begins at an index, under the schedule of a trace.
///
/// # Errors
///
/// `NotPossible` for the first round that is not possible, if none before it is late; `Pace` for
/// the first round that is late and the least processor for which it is, if no round up to it is
/// impossible; and `Memory` if there isn't enough memory.
pub fn replay_list(
    alloc: Global,
    ops: &[CoreOp],
    main: u32,
    words: &[u32],
    firsts: &[u32],
    input: &[u32],
    trace: &Trace,
) -> Result<Replayed, ReplayFault>
    requires few { length ops.now < 2 ^ 32 }
    requires words { length words.now + length input.now ≤ 2 ^ 19 }
    requires trace { IsOfText trace.now }
    // The list has the code of a text that keeps the rules on groups and addresses.
    requires orderly { IsOrderly ops.now main }
    requires safe { IsSafe ops.now main words.now firsts.now input.now trace.now.harts }
    ensures { IsAnswer ops.now main words.now firsts.now input.now trace.now.harts
        (schedule_in trace.now) result }
{
    let mut run = Run::opening(alloc, main, words, firsts, input, trace.harts)?;
    run.begin(ops);
    let fault = follow(&mut run, ops, trace)?;
    let output = copied(alloc, run.store.output())?;
    Ok(Replayed {
        output,
        end: end_of(ops, &run.actors, fault),
    })
}
