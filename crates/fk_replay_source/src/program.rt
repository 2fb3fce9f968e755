//! The replay of a program.

ghost use Rattle.std.specs.Prelude.{◌+◌, ◌<◌, ◌≤◌, ◌^◌, length};
ghost use Rattle.fk_num.specs.Limits.{most_data_words};
ghost use Rattle.fk_syntax.specs.ProgramView.{program_of};
ghost use Rattle.fk_layout.specs.Layout.{IsLayout, tables_by};
ghost use Rattle.fk_compile.specs.Faithful.{words_by};
ghost use Rattle.fk_compile.specs.Lists.{HasListOf};
ghost use Rattle.fk_replay_lists.specs.Lists.{CanBeReplayed};
ghost use Rattle.fk_replay.specs.Replay.{IsOfText, schedule_in};
ghost use Rattle.fk_replay_source.specs.Answer.{IsAnswerFor};

use crate::laws::answers_are_carried;
use crate::listed::Listed;
use fk_replay::{ReplayFault, Replayed, Trace, replay_list};
use std::alloc::Global;

/// The run of a text's program on input numbers, under the schedule of a trace.
///
/// # Errors
///
/// `NotPossible` for the first round that is not possible, if none before it is late; `Pace` for
/// the first round that is late and the least processor for which it is, if no round up to it is
/// impossible; and `Memory` if there isn't enough memory.
pub fn replay(
    alloc: Global,
    listed: &Listed,
    input: &[u32],
    trace: &Trace,
) -> Result<Replayed, ReplayFault>
    requires laid { IsLayout (program_of listed.now.text.tree) listed.now.text.facts
        listed.now.text.layout }
    requires list { HasListOf (tables_by (program_of listed.now.text.tree) listed.now.text.facts)
        (program_of listed.now.text.tree) listed.now.list.ops.items listed.now.list.main }
    requires small { length listed.now.list.ops.items < 2 ^ 32 }
    requires replayable { CanBeReplayed listed.now.list.ops.items listed.now.list.main }
    requires room { length (words_by (program_of listed.now.text.tree) listed.now.text.facts)
        + length input.now
        ≤ most_data_words }
    requires trace { IsOfText trace.now }
    ensures { IsAnswerFor (program_of listed.now.text.tree) listed.now.text.facts input.now
        trace.now.harts (schedule_in trace.now) result }
{
    // This call is a fact for the proof, and does nothing.
    answers_are_carried();
    let layout = &listed.text.layout;
    replay_list(
        alloc,
        &listed.list.ops,
        listed.list.main,
        &layout.words,
        &layout.firsts,
        input,
        trace,
    )
}
