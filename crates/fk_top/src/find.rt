//! The ending of a call, before anything is put or given.

ghost use Rattle.std.specs.Prelude.{◌+◌, ◌≡◌, ◌⊎◌, map, string_bytes, IfOk, IsErr, IsOkAnd, OnErr};
ghost use Rattle.fk_num.specs.Limits.{most_text_bytes};
ghost use Rattle.fk_ports.specs.Known.{GivesAtMost};
ghost use Rattle.fk_top_words.specs.Command.{command_of};
ghost use Rattle.fk_top.specs.Words.{HasInput, IsFetch};
ghost use Rattle.fk_top.specs.Outcome.{ComesTo, silent};
ghost use Rattle.fk_top.specs.Report.{line_of};
ghost use Rattle.fk_top.specs.Ending.{outcome_of};
ghost use Rattle.fk_top.specs.Call.{Ends, given_of, request_of};

use crate::bytes::{list_bytes, run_bytes};
use crate::elf::{put_elf, put_image};
use crate::ending::{Ending, silent};
use crate::input::take_input;
use crate::lock::give_lock;
use crate::reading::{ReadBytes, read_files};
use crate::replay::replay_source;
use crate::report::Report;
use crate::source::{audit_source, build_source, run_source, test_source, trace_source};
use crate::status::Status;
use fk_ports::{Source, Store, StoreFault};
use fk_top_words::{CommandWords, WordsFault, read_words};
use std::alloc::{AllocError, Global};

/// The ending of a call with these words, for a store and an input. It changes nothing in the
/// store, runs nothing but an audit and a replay, and gives nothing to any sink. A file or an input
/// that could not be read is an ending too. It fails only if there isn't enough memory.
pub fn find_ending<'a, F: Store, S: Source>(
    alloc: Global,
    words: &'a [String],
    files: &mut F,
    input: &mut S,
) -> Result<Ending<'a>, AllocError>
    ensures ends { IfOk result (λ e.
        Ends (request_of F.files F.fetch_faults (map string_bytes words.now) files.old files.new
        (given_of S.left S.faults input.old input.new)) (outcome_of e)) }
    ensures steady { IfOk result
        (λ e. (outcome_of e ≡ silent Status.ReadFault (line_of Report.ReadFault))
        ⊎ ((F.fetch_faults files.new ≡ F.fetch_faults files.old)
        × (S.faults input.new ≡ S.faults input.old))) }
    ensures unread { OnErr result ((F.fetch_faults files.new ≡ F.fetch_faults files.old)
        × (S.faults input.new ≡ S.faults input.old)) }
    ensures lost { OnErr result
        (GivesAtMost (most_text_bytes + 1) (S.left input.old) (S.left input.new)) }
    ensures files { F.files files.new ≡ F.files files.old }
    ensures put_faults { F.put_faults files.new ≡ F.put_faults files.old }
    ensures fetch_faults { ¬ IsFetch (map string_bytes words.now)
        → F.fetch_faults files.new ≡ F.fetch_faults files.old }
    ensures left { ¬ HasInput (map string_bytes words.now) → S.left input.new ≡ S.left input.old }
    ensures input_faults { ¬ HasInput (map string_bytes words.now)
        → S.faults input.new ≡ S.faults input.old }
{
    let command = match read_words(alloc, words) {
        Ok(command) => command,
        Err(fault) => return no_command(alloc, fault),
    };
    let read = match read_files(alloc, command, files) {
        Ok(read) => read,
        Err(fault) => return unread(alloc, fault),
    };
    match take_input(alloc, command, input) {
        Ok(text) => command_ending(alloc, command, &read, text.as_slice()),
        Err(fault) => unread(alloc, fault),
    }
}

// The ending if the words are no command. A lack of memory has none.
fn no_command<'a>(alloc: Global, fault: WordsFault) -> Result<Ending<'a>, AllocError>
    ensures usage { fault ≡ WordsFault.Usage
        → IsOkAnd result (λ e. outcome_of e ≡ silent Status.Usage (line_of Report.CommandLine)) }
    ensures memory { fault ≡ WordsFault.Memory → IsErr result }
{
    match fault {
        WordsFault::Usage => Ok(silent(alloc, Status::Usage, Report::CommandLine)),
        WordsFault::Memory => Err(AllocError),
    }
}

// The ending if the file or the input can't be read. A lack of memory has none.
fn unread<'a>(alloc: Global, fault: StoreFault) -> Result<Ending<'a>, AllocError>
    ensures fault { fault ≡ StoreFault.Fault
        → IsOkAnd result (λ e. outcome_of e ≡ silent Status.ReadFault (line_of Report.ReadFault)) }
    ensures memory { fault ≡ StoreFault.Memory → IsErr result }
{
    match fault {
        StoreFault::Fault => Ok(silent(alloc, Status::ReadFault, Report::ReadFault)),
        StoreFault::Memory => Err(AllocError),
    }
}

// The ending of a command, for the bytes that it read and the input text.
fn command_ending<'a>(
    alloc: Global,
    command: CommandWords<'a>,
    read: &ReadBytes,
    text: &[u8],
) -> Result<Ending<'a>, AllocError>
    ensures { IfOk result (λ e. ComesTo (command_of command.entry) read.now.file.items
        read.now.trace.items text.now (outcome_of e)) }
{
    let bytes = read.file.as_slice();
    match command {
        CommandWords::Run(_, run, show) => run_source(alloc, bytes, text, run, show),
        CommandWords::Build(_, image) => build_source(alloc, bytes, image),
        CommandWords::Exec(_, run) => run_bytes(alloc, bytes, text, run),
        CommandWords::List(_) => list_bytes(alloc, bytes),
        CommandWords::Elf(_, file) => put_elf(alloc, bytes, file),
        CommandWords::Unelf(_, image) => put_image(alloc, bytes, image),
        CommandWords::Audit(_, run) => audit_source(alloc, bytes, text, run),
        CommandWords::Trace(_, run) => trace_source(alloc, bytes, text, run),
        CommandWords::Replay(_, _) => replay_source(alloc, bytes, read.trace.as_slice(), text),
        CommandWords::Selftest(_) => test_source(alloc, bytes),
        CommandWords::Locks => give_lock(alloc),
    }
}
