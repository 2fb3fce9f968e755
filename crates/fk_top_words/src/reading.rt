//! Reading the words.

ghost use Rattle.std.specs.Prelude.{◌≡◌, ◌↔◌, map, string_bytes, IfOk, IfErr};
ghost use Rattle.fk_top_words.specs.Command.{Command, Reads, command_of};

use crate::asked::asked;
use crate::command::CommandWords;
use crate::commands::commands;
use crate::fault::WordsFault;
use clap::error::ErrorKind;
use std::alloc::Global;

/// The command of these words, those after the program's name. It fails with `Usage` only if they
/// are no command, and with `Memory` if there isn't enough memory.
pub fn read_words<'a>(alloc: Global, words: &'a [String]) -> Result<CommandWords<'a>, WordsFault>
    ensures reads { IfOk result (λ c. Reads (map string_bytes words.now) (command_of c)) }
    ensures usage { IfErr result (λ fault. fault ≡ WordsFault.Usage → (c : Command)
        → Reads (map string_bytes words.now) c → ⊥) }
{
    match commands(alloc)?.try_get_matches_from(words) {
        Ok(matches) => asked(&matches),
        Err(error) => Err(fault_of_kind(error.kind())),
    }
}

/// The fault for an error of `clap`. All errors are faults of the words, except for lack of memory.
fn fault_of_kind(kind: ErrorKind) -> WordsFault
    ensures { (result ≡ WordsFault.Memory) ↔ (kind ≡ ErrorKind.OutOfMemory) }
{
    match kind {
        ErrorKind::OutOfMemory => WordsFault::Memory,
        _ => WordsFault::Usage,
    }
}
