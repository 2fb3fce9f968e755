//! The outcome of replaying a trace.

ghost use Rattle.std.specs.Prelude.{◌≡◌, ◌⊎◌, ◌<◌, ◌≤◌, ◌^◌, IfOk, length};
ghost use Rattle.fk_num.specs.Limits.{most_data_words};
ghost use Rattle.fk_syntax.specs.ProgramView.{program_of};
ghost use Rattle.fk_layout.specs.Layout.{IsLayout, tables_by};
ghost use Rattle.fk_compile.specs.Faithful.{words_by};
ghost use Rattle.fk_compile.specs.Lists.{HasListOf};
ghost use Rattle.fk_replay_lists.specs.Lists.{CanBeReplayed};
ghost use Rattle.fk_replay_source.specs.Answer.{sites_by};
ghost use Rattle.fk_top.specs.Ending.{outcome_of};
ghost use Rattle.fk_top.specs.Outcome.{EndsReplay, RefusesSource, ReplaysSource, replay_report};
ghost use Rattle.fk_top.specs.Outcome.{replay_status, replayed};

use crate::ending::{Ending, LastLine, Told, refused, refused_source};
use crate::refused::{input_report_of, last_line_of, trace_report_of};
use crate::report::Report;
use crate::run::most_numbers;
use crate::stand::fault_report;
use crate::status::Status;
use fk_replay_source::{End, Listed, Replayed, listed_text, read_trace, replay};
use fk_top_input::read_input;
use std::alloc::{AllocError, Global};

/// The ending of running a source's program on an input text, under the schedule of a trace. Fails
/// if there isn't enough memory.
pub fn replay_source<'a>(
    alloc: Global,
    source: &[u8],
    bytes: &[u8],
    text: &[u8],
) -> Result<Ending<'a>, AllocError>
    ensures { IfOk result (λ e. RefusesSource source.now (outcome_of e)
        ⊎ ReplaysSource source.now bytes.now text.now (outcome_of e)) }
{
    match listed_text(alloc, source) {
        Ok(listed) => replay_listed(alloc, &listed, bytes, text),
        Err(refusal) => refused_source(alloc, last_line_of(refusal)),
    }
}

// The same for a source of which everything is known.
fn replay_listed<'a>(
    alloc: Global,
    listed: &Listed,
    bytes: &[u8],
    text: &[u8],
) -> Result<Ending<'a>, AllocError>
    requires laid { IsLayout (program_of listed.now.text.tree) listed.now.text.facts
        listed.now.text.layout }
    requires list { HasListOf (tables_by (program_of listed.now.text.tree) listed.now.text.facts)
        (program_of listed.now.text.tree) listed.now.list.ops.items listed.now.list.main }
    requires small { length listed.now.list.ops.items < 2 ^ 32 }
    requires replayable { CanBeReplayed listed.now.list.ops.items listed.now.list.main }
    requires few { length (words_by (program_of listed.now.text.tree) listed.now.text.facts)
        ≤ most_data_words }
    ensures { IfOk result (λ e. EndsReplay (program_of listed.now.text.tree) listed.now.text.facts
        bytes.now text.now (outcome_of e)) }
{
    let trace = match read_trace(alloc, bytes) {
        Ok(trace) => trace,
        Err(fault) => return refused(alloc, Status::TraceRefused, trace_report_of(fault)),
    };
    let limit = most_numbers(listed.globals());
    let input = match read_input(alloc, text, limit) {
        Ok(numbers) => numbers,
        Err(fault) => return refused(alloc, Status::InputRefused, input_report_of(fault)),
    };
    match replay(alloc, listed, input.as_slice(), &trace) {
        Ok(replayed) => Ok(accepted(listed, replayed, trace.cycles)),
        Err(fault) => refused(alloc, Status::TraceRefused, trace_report_of(fault)),
    }
}

// The ending where a trace of so many cycles is accepted.
fn accepted<'a>(listed: &Listed, run: Replayed, cycles: u32) -> Ending<'a>
    requires laid { IsLayout (program_of listed.now.text.tree) listed.now.text.facts
        listed.now.text.layout }
    ensures { outcome_of result
        ≡ replayed (sites_by (program_of listed.now.text.tree) listed.now.text.facts) run cycles }
{
    let line = LastLine::Reported(report_of(listed, run.end, cycles));
    Ending::Told(Told {
        status: status_of(run.end),
        put: None,
        output: run.output,
        line,
    })
}

// The status for how a program ends under a trace.
fn status_of(end: End) -> Status
    ensures { result ≡ replay_status end }
{
    match end {
        End::Finished => Status::Done,
        End::Running => Status::CycleBound,
        End::Faulted(_, _) => Status::SourceFault,
    }
}

// The report for how a program ends under a trace of so many cycles.
fn report_of(listed: &Listed, end: End, cycles: u32) -> Report
    requires laid { IsLayout (program_of listed.now.text.tree) listed.now.text.facts
        listed.now.text.layout }
    ensures { result
        ≡ replay_report (sites_by (program_of listed.now.text.tree) listed.now.text.facts) end
        cycles }
{
    match end {
        End::Finished => Report::Finished(cycles),
        End::Running => Report::Stopped(cycles),
        End::Faulted(site, processor) => fault_report(listed.site(site), processor, cycles),
    }
}
