//! One call of the program.

ghost use Rattle.std.specs.Prelude.{◌≡◌, ◌≢◌, ◌⊎◌, None, map, option_map, string_bytes};
ghost use Rattle.std.specs.Prelude.{IsErrOf, IsOk, OnErr, OnOk};
ghost use Rattle.std.specs.Io.KnownBytes.{append_known};
ghost use Rattle.fk_ports.specs.Faults.{HasRisen};
ghost use Rattle.fk_ports.specs.Known.{TakesPrefix};
ghost use Rattle.fk_top.specs.Ending.{last_line, outcome_of, put_of, run_outcome, told_outcome};
ghost use Rattle.fk_top.specs.Report.{frame_line};
ghost use Rattle.fk_top.specs.Call.{Ends, FailedToPut, HasCause, HasPut, IsAnswer, IsSame, Request};
ghost use Rattle.fk_top.specs.Call.{Stored, call_of, given_of, request_of, stored_of, sunk_of};

use crate::ending::{Ending, LastLine, PutFile, Told};
use crate::find::find_ending;
use crate::machine_run::MachineRun;
use crate::run::give_run;
use crate::stand::{stand_report, status_of};
use crate::status::Status;
use fk_num::unsigned_text;
use fk_ports::{Failed, Sink, Source, Store, StoreFault, give_all, give_pieces};
use std::alloc::{AllocError, Global};

/// One call of the program with these words, those after the program's name, a store of files,
/// standard input, standard output and standard error.
///
/// The commands are `run FILE --harts P --cycles N [--show NAME]`, `build FILE -o IMAGE`, `exec
/// IMAGE --harts P --cycles N`, `list IMAGE`, `elf IMAGE -o FILE`, `unelf FILE -o IMAGE`, `selftest
/// N`, `locks`, `replay FILE TRACE`, and with the words of `run` but without `--show` `audit` and
/// `trace`. Those that run a file take the input numbers from `input`, once the file is read;
/// `replay` reads the trace before it; `selftest` and `locks` read neither a file nor an input.
///
/// A file is put before anything is given. What a cycle prints, or its lines in a trace, is given
/// after that cycle; an audit is given when the run has ended, and so is what is printed under a
/// trace, if the trace is accepted. The line of the variable that is shown follows when the run has
/// ended. The report is the last line that `err` gets. Once a machine runs, the call takes no
/// memory.
///
/// `IsAnswer` says, fact by fact, what holds of the words, the status, and what the store and the
/// sinks have before the call and after it.
pub fn fork95<F: Store, S: Source, K: Sink, E: Sink>(
    alloc: Global,
    words: &[String],
    files: &mut F,
    input: &mut S,
    out: &mut K,
    err: &mut E,
) -> Status
    ensures call { let given = given_of S.left S.faults input.old input.new in
        let request =
        request_of F.files F.fetch_faults (map string_bytes words.now) files.old files.new given in
        let store = stored_of F.files F.put_faults files.old files.new in
        let printed = sunk_of K.taken K.faults out.old out.new in
        let reported = sunk_of E.taken E.faults err.old err.new in
        IsAnswer (call_of request store printed reported) result }
{
    match find_ending(alloc, words, files, input) {
        Ok(ending) => give_ending(ending, files, out, err),
        Err(AllocError) => Status::Memory,
    }
}

// Brings about the ending of a call.
fn give_ending<F: Store, K: Sink, E: Sink>(
    ending: Ending,
    files: &mut F,
    out: &mut K,
    err: &mut E,
) -> Status
    ensures cause { let store = stored_of F.files F.put_faults files.old files.new in
        let printed = sunk_of K.taken K.faults out.old out.new in
        let reported = sunk_of E.taken E.faults err.old err.new in
        (request : Request) → Ends request (outcome_of ending.entry)
        → HasCause (call_of request store printed reported) result }

    // Only `WriteFault` reports a failed write, and only a put can fail for lack of memory.
    ensures put { result ≢ Status.WriteFault → F.put_faults files.new ≡ F.put_faults files.old }
    ensures out { result ≢ Status.WriteFault → K.faults out.new ≡ K.faults out.old }
    ensures err { result ≢ Status.WriteFault → E.faults err.new ≡ E.faults err.old }
    ensures status { (outcome_of ending.entry).put ≡ None
        → (result ≡ (outcome_of ending.entry).status) ⊎ (result ≡ Status.WriteFault) }
    ensures nothing_put { (outcome_of ending.entry).put ≡ None
        → F.put_faults files.new ≡ F.put_faults files.old }
    ensures fetch_faults { F.fetch_faults files.new ≡ F.fetch_faults files.old }
{
    match ending {
        Ending::Told(told) => give_told(&told, files, out, err),
        Ending::Runs(run) => run_and_report(run, out, err),
    }
}

// Puts the file of an ending, if it has one, gives the output, and then the line of the report.
fn give_told<F: Store, K: Sink, E: Sink>(
    told: &Told,
    files: &mut F,
    out: &mut K,
    err: &mut E,
) -> Status
    ensures cause { let store = stored_of F.files F.put_faults files.old files.new in
        let printed = sunk_of K.taken K.faults out.old out.new in
        let reported = sunk_of E.taken E.faults err.old err.new in
        (request : Request) → Ends request (told_outcome told.now)
        → HasCause (call_of request store printed reported) result }
    ensures put { result ≢ Status.WriteFault → F.put_faults files.new ≡ F.put_faults files.old }
    ensures out { result ≢ Status.WriteFault → K.faults out.new ≡ K.faults out.old }
    ensures err { result ≢ Status.WriteFault → E.faults err.new ≡ E.faults err.old }
    ensures status { told.now.put ≡ None
        → (result ≡ told.now.status) ⊎ (result ≡ Status.WriteFault) }
    ensures nothing_put { told.now.put ≡ None → F.put_faults files.new ≡ F.put_faults files.old }
    ensures fetch_faults { F.fetch_faults files.new ≡ F.fetch_faults files.old }
{
    match put_file(&told.put, files) {
        Err(StoreFault::Fault) => return Status::WriteFault,
        Err(StoreFault::Memory) => return Status::Memory,
        Ok(()) => {}
    }
    if give_all(out, told.output.as_slice()).is_err() {
        return Status::WriteFault;
    }
    if give_line(err, &told.line).is_err() {
        return Status::WriteFault;
    }
    told.status
}

// Runs a machine, gives what is written of the run while it runs, and then the line of the report.
// It puts nothing and takes no memory.
fn run_and_report<K: Sink, E: Sink>(run: MachineRun, out: &mut K, err: &mut E) -> Status
    ensures cause { let printed = sunk_of K.taken K.faults out.old out.new in
        let reported = sunk_of E.taken E.faults err.old err.new in
        (request : Request) (store : Stored) → IsSame store.files
        → Ends request (run_outcome run.entry)
        → HasCause (call_of request store printed reported) result }
    ensures out { result ≢ Status.WriteFault → K.faults out.new ≡ K.faults out.old }
    ensures err { result ≢ Status.WriteFault → E.faults err.new ≡ E.faults err.old }
    ensures status { (result ≡ (run_outcome run.entry).status) ⊎ (result ≡ Status.WriteFault) }
{
    let mut machine = run.machine;
    let Ok(stand) = give_run(&mut machine, run.bound, run.text, out) else {
        return Status::WriteFault;
    };
    let report = stand_report(&run.image, run.bound, stand, machine.cycles());
    if give_line(err, &LastLine::Reported(report)).is_err() {
        return Status::WriteFault;
    }
    status_of(stand)
}

// Gives the last line.
fn give_line<E: Sink>(err: &mut E, line: &LastLine) -> Result<(), Failed>
    ensures all { OnOk result
        (E.taken err.new ≡ append_known (E.taken err.old) (last_line line.now)) }
    ensures prefix { OnErr result
        (TakesPrefix (E.taken err.old) (E.taken err.new) (last_line line.now)) }
    ensures fault { OnErr result (HasRisen (E.faults err.old) (E.faults err.new)) }
    ensures steady { OnOk result (E.faults err.new ≡ E.faults err.old) }
{
    match line {
        LastLine::Reported(report) => give_all(err, report.line().as_slice()),
        LastLine::FrameTooLarge(name, words) => give_frame(err, name.as_slice(), *words),
        LastLine::NoGlobal(name) => {
            give_pieces(err, &[b"refused 23 NoGlobal ", name.as_bytes(), b"\n"])
        }
    }
}

// Gives the line of a function whose private frame has this many words.
fn give_frame<E: Sink>(err: &mut E, name: &[u8], words: u32) -> Result<(), Failed>
    ensures all { OnOk result
        (E.taken err.new ≡ append_known (E.taken err.old) (frame_line name.now words)) }
    ensures prefix { OnErr result
        (TakesPrefix (E.taken err.old) (E.taken err.new) (frame_line name.now words)) }
    ensures fault { OnErr result (HasRisen (E.faults err.old) (E.faults err.new)) }
    ensures steady { OnOk result (E.faults err.new ≡ E.faults err.old) }
{
    let number = unsigned_text(words);
    give_pieces(
        err,
        &[
            b"refused 10 FrameTooLarge ",
            name,
            b" ",
            number.as_slice(),
            b"\n",
        ],
    )
}

// Puts a file, if there is one.
fn put_file<F: Store>(file: &Option<PutFile>, files: &mut F) -> Result<(), StoreFault>
    ensures put { OnOk result
        (HasPut (stored_of F.files F.put_faults files.old files.new) (option_map put_of file.now)) }
    ensures fault { IsErrOf result StoreFault.Fault → FailedToPut
        (stored_of F.files F.put_faults files.old files.new) (option_map put_of file.now) }
    ensures memory { IsErrOf result StoreFault.Memory → F.files files.new ≡ F.files files.old }
    ensures steady { OnOk result (F.put_faults files.new ≡ F.put_faults files.old) }
    ensures refused { IsErrOf result StoreFault.Memory
        → F.put_faults files.new ≡ F.put_faults files.old }
    ensures nothing { file.now ≡ None → IsOk result }
    ensures fetch_faults { F.fetch_faults files.new ≡ F.fetch_faults files.old }
{
    match file {
        Some(file) => files.put(file.name, file.bytes.as_slice()),
        None => Ok(()),
    }
}
