//! The input of a command.

ghost use Rattle.std.specs.Prelude.{◌≡◌, [], IfOk, IsErrOf, OnErr, OnOk};
ghost use Rattle.fk_ports.specs.Faults.{HasRisen};
ghost use Rattle.fk_ports.specs.Known.{GivesAtMost, MovesFirst};
ghost use Rattle.fk_top_words.specs.Command.{command_of};
ghost use Rattle.fk_top.specs.Words.{TakesInput, most_input};

use crate::command::most_input;
use fk_ports::{Source, StoreFault, take_all};
use fk_top_words::CommandWords;
use std::alloc::Global;

/// The input text of a command that takes one: the first bytes that the input has left. For another
/// command it is empty, and nothing is taken from the input.
pub fn take_input<S: Source>(
    alloc: Global,
    command: CommandWords,
    input: &mut S,
) -> Result<Vec<u8>, StoreFault>
    ensures taken { IfOk result (λ text. MovesFirst (most_input (command_of command.entry))
        (S.left input.old) (S.left input.new) [] text.items) }
    ensures takes { IsErrOf result StoreFault.Fault → TakesInput (command_of command.entry) }
    ensures lost { OnErr result (GivesAtMost
        (most_input (command_of command.entry)) (S.left input.old) (S.left input.new)) }
    ensures fault { IsErrOf result StoreFault.Fault
        → HasRisen (S.faults input.old) (S.faults input.new) }
    ensures memory { IsErrOf result StoreFault.Memory → S.faults input.new ≡ S.faults input.old }
    ensures steady { OnOk result (S.faults input.new ≡ S.faults input.old) }
    ensures left { ¬ TakesInput (command_of command.entry) → S.left input.new ≡ S.left input.old }
    ensures input_faults { ¬ TakesInput (command_of command.entry)
        → S.faults input.new ≡ S.faults input.old }
{
    let most = most_input(command);
    if most == 0 {
        return Ok(Vec::new(alloc));
    }
    take_all(alloc, input, most)
}
