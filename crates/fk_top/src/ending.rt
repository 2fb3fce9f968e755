//! The ending of a call.

ghost use Rattle.std.specs.Prelude.{◌≡◌, IsErr, IsOkAnd, MatchOption};
ghost use Rattle.fk_top.specs.Ending.{last_line, outcome_of};
ghost use Rattle.fk_top.specs.Outcome.{silent};
ghost use Rattle.fk_top.specs.Report.{line_of, no_global_line};

use crate::machine_run::MachineRun;
use crate::report::Report;
use crate::status::Status;
use std::alloc::{AllocError, Global};

/// A file to be put.
#[derive(Drop)]
pub struct PutFile<'a> {
    pub name: &'a str,
    pub bytes: Vec<u8>,
}

/// The last line that a call writes, to standard error.
#[derive(Drop)]
pub enum LastLine<'a> {
    /// The line of a report.
    Reported(Report),
    /// The private frame of the function of this name has this many words, which are too many.
    FrameTooLarge(Vec<u8>, u32),
    /// The source has no shared variable of this name, which was to be shown.
    NoGlobal(&'a str),
}

/// The ending of a call that runs nothing: its status, the file that it puts, if any, the bytes for
/// standard output, and its last line.
#[derive(Drop)]
pub struct Told<'a> {
    pub status: Status,
    pub put: Option<PutFile<'a>>,
    pub output: Vec<u8>,
    pub line: LastLine<'a>,
}

/// The ending of a call.
#[derive(Drop)]
pub enum Ending<'a> {
    /// All of it is known.
    Told(Told<'a>),
    /// A machine is to run.
    Runs(MachineRun<'a>),
}

// An ending that puts nothing and has no output.
fn silent_with<'a>(alloc: Global, status: Status, line: LastLine<'a>) -> Ending<'a>
    ensures { outcome_of result ≡ silent status (last_line line.entry) }
{
    Ending::Told(Told {
        status,
        put: None,
        output: Vec::new(alloc),
        line,
    })
}

/// An ending with the line of a report, without a file and without output.
pub fn silent<'a>(alloc: Global, status: Status, report: Report) -> Ending<'a>
    ensures { outcome_of result ≡ silent status (line_of report) }
{
    silent_with(alloc, status, LastLine::Reported(report))
}

/// The ending where a source has no variable of a name.
pub fn no_global<'a>(alloc: Global, name: &'a str) -> Ending<'a>
    ensures { outcome_of result ≡ silent Status.Refused (no_global_line name.now) }
{
    silent_with(alloc, Status::Refused, LastLine::NoGlobal(name))
}

/// The ending where a source is refused. Without a line it is no refusal, but there isn't enough
/// memory.
pub fn refused_source<'a>(
    alloc: Global,
    line: Option<LastLine<'a>>,
) -> Result<Ending<'a>, AllocError>
    ensures { MatchOption line.entry (IsErr result)
        (λ l. IsOkAnd result (λ e. outcome_of e ≡ silent Status.Refused (last_line l))) }
{
    match line {
        Some(line) => Ok(silent_with(alloc, Status::Refused, line)),
        None => Err(AllocError),
    }
}

/// The ending of another refusal. Without a report it is no refusal, but there isn't enough memory.
pub fn refused<'a>(
    alloc: Global,
    status: Status,
    report: Option<Report>,
) -> Result<Ending<'a>, AllocError>
    ensures { MatchOption report (IsErr result)
        (λ r. IsOkAnd result (λ e. outcome_of e ≡ silent status (line_of r))) }
{
    match report {
        Some(report) => Ok(silent(alloc, status, report)),
        None => Err(AllocError),
    }
}
