//! The bytes that a command reads.

ghost use Rattle.std.specs.Prelude.{◌≡◌, ◌⊎◌, IfOk, IsErrOf, OnOk};
ghost use Rattle.fk_top_words.specs.Command.{command_of};
ghost use Rattle.fk_top.specs.Call.{AreRead, OriginFaults, change_of};
ghost use Rattle.fk_top.specs.Words.{IsFile, origin_from, origin_of, trace_origin_of};

use crate::command::{OriginWords, origin_of, trace_origin_of};
use fk_ports::{Store, StoreFault};
use fk_top_selftest::generate;
use fk_top_words::CommandWords;
use std::alloc::Global;

/// The bytes that a command reads from the store.
#[derive(Drop)]
pub struct ReadBytes {
    /// Those of its file, or the generated text.
    pub file: Vec<u8>,
    /// Those of the trace beside it.
    pub trace: Vec<u8>,
}

/// The bytes that a command reads: first its file, then the trace beside it.
pub fn read_files<F: Store>(
    alloc: Global,
    command: CommandWords,
    files: &mut F,
) -> Result<ReadBytes, StoreFault>
    ensures file { IfOk result (λ read.
        AreRead (F.files files.old) (origin_of (command_of command.entry)) read.file.items) }
    ensures trace { IfOk result (λ read.
        AreRead (F.files files.old) (trace_origin_of (command_of command.entry)) read.trace.items) }
    ensures fault { IsErrOf result StoreFault.Fault
        → OriginFaults (F.files files.old) (origin_of (command_of command.entry))
        (change_of F.fetch_faults files.old files.new)
        ⊎ OriginFaults (F.files files.old) (trace_origin_of (command_of command.entry))
        (change_of F.fetch_faults files.old files.new) }
    ensures memory { IsErrOf result StoreFault.Memory
        → F.fetch_faults files.new ≡ F.fetch_faults files.old }
    ensures steady { OnOk result (F.fetch_faults files.new ≡ F.fetch_faults files.old) }
    ensures fetch_faults { ¬ IsFile (origin_of (command_of command.entry))
        → F.fetch_faults files.new ≡ F.fetch_faults files.old }
    ensures files { F.files files.new ≡ F.files files.old }
    ensures put_faults { F.put_faults files.new ≡ F.put_faults files.old }
{
    let file = read_bytes(alloc, origin_of(command), files)?;
    let trace = read_bytes(alloc, trace_origin_of(command), files)?;
    Ok(ReadBytes { file, trace })
}

/// The first bytes of a file, or a generated text, for which nothing is fetched. A command that
/// reads nothing has no bytes.
fn read_bytes<F: Store>(
    alloc: Global,
    origin: OriginWords,
    files: &mut F,
) -> Result<Vec<u8>, StoreFault>
    ensures read { IfOk result
        (λ bytes. AreRead (F.files files.old) (origin_from origin.entry) bytes.items) }
    ensures fault { IsErrOf result StoreFault.Fault → OriginFaults (F.files files.old)
        (origin_from origin.entry) (change_of F.fetch_faults files.old files.new) }
    ensures memory { IsErrOf result StoreFault.Memory
        → F.fetch_faults files.new ≡ F.fetch_faults files.old }
    ensures steady { OnOk result (F.fetch_faults files.new ≡ F.fetch_faults files.old) }
    ensures fetch_faults { ¬ IsFile (origin_from origin.entry)
        → F.fetch_faults files.new ≡ F.fetch_faults files.old }
    ensures files { F.files files.new ≡ F.files files.old }
    ensures put_faults { F.put_faults files.new ≡ F.put_faults files.old }
{
    match origin {
        OriginWords::File(name, most) => {
            let mut bytes = Vec::new(alloc);
            files.fetch(name, most, &mut bytes)?;
            Ok(bytes)
        }
        OriginWords::Generated(statements) => Ok(generate(alloc, statements)?),
        OriginWords::Nowhere => Ok(Vec::new(alloc)),
    }
}
