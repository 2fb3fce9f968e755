//! The line that shows a variable.

ghost use Rattle.std.specs.Prelude.{◌≡◌, OnErr, OnOk};
ghost use Rattle.std.specs.Io.KnownBytes.{append_known};
ghost use Rattle.fk_ports.specs.Faults.{HasRisen};
ghost use Rattle.fk_ports.specs.Known.{TakesPrefix};
ghost use Rattle.fk_machine.specs.View.{machine_of};
ghost use Rattle.fk_top.specs.Ending.{variable_of};
ghost use Rattle.fk_top.specs.Outcome.{words_in};
ghost use Rattle.fk_top.specs.Report.{show_line, word_text, words_text};

use crate::variable::Variable;
use fk_machine::Machine;
use fk_num::{signed_text, unsigned_text};
use fk_ports::{Failed, Sink, give_all, give_pieces};

/// Gives the line that shows a variable in the machine.
pub fn give_shown<K: Sink>(out: &mut K, machine: &Machine, variable: Variable) -> Result<(), Failed>
    ensures all { OnOk result (K.taken out.new ≡ append_known (K.taken out.old)
        (show_line variable.entry.name.now variable.entry.signed
        (words_in (machine_of machine.now) (variable_of variable.entry)))) }
    ensures prefix { OnErr result (TakesPrefix (K.taken out.old) (K.taken out.new)
        (show_line variable.entry.name.now variable.entry.signed
        (words_in (machine_of machine.now) (variable_of variable.entry)))) }
    ensures fault { OnErr result (HasRisen (K.faults out.old) (K.faults out.new)) }
    ensures steady { OnOk result (K.faults out.new ≡ K.faults out.old) }
{
    give_pieces(out, &[variable.name.as_bytes(), b" ="])?;
    give_words(out, machine, variable)?;
    give_all(out, b"\n")
}

// Gives the words of a variable in the machine as numbers, with a blank before each.
fn give_words<K: Sink>(out: &mut K, machine: &Machine, variable: Variable) -> Result<(), Failed>
    ensures all { OnOk result (K.taken out.new ≡ append_known (K.taken out.old)
        (words_text variable.entry.signed
        (words_in (machine_of machine.now) (variable_of variable.entry)))) }
    ensures prefix { OnErr result (TakesPrefix (K.taken out.old) (K.taken out.new)
        (words_text variable.entry.signed
        (words_in (machine_of machine.now) (variable_of variable.entry)))) }
    ensures fault { OnErr result (HasRisen (K.faults out.old) (K.faults out.new)) }
    ensures steady { OnOk result (K.faults out.new ≡ K.faults out.old) }
{
    for index in 0..variable.words {
        give_word(out, machine.word(variable.first + index), variable.signed)?;
    }
    Ok(())
}

// Gives a word as a number, with a blank before it.
fn give_word<K: Sink>(out: &mut K, word: u32, signed: bool) -> Result<(), Failed>
    ensures all { OnOk result
        (K.taken out.new ≡ append_known (K.taken out.old) (word_text signed word)) }
    ensures prefix { OnErr result
        (TakesPrefix (K.taken out.old) (K.taken out.new) (word_text signed word)) }
    ensures fault { OnErr result (HasRisen (K.faults out.old) (K.faults out.new)) }
    ensures steady { OnOk result (K.faults out.new ≡ K.faults out.old) }
{
    if signed {
        let number = signed_text(word);
        give_pieces(out, &[b" ", number.as_slice()])
    } else {
        let number = unsigned_text(word);
        give_pieces(out, &[b" ", number.as_slice()])
    }
}
