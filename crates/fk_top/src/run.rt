//! Whole runs of an image.

ghost use Rattle.std.specs.Prelude.{◌≡◌, ◌≤◌, option_map, IfOk, OnErr, OnOk};
ghost use Rattle.std.specs.Io.KnownBytes.{append_known};
ghost use Rattle.fk_num.specs.Limits.{most_data_words};
ghost use Rattle.fk_ports.specs.Faults.{HasRisen};
ghost use Rattle.fk_ports.specs.Known.{TakesPrefix};
ghost use Rattle.fk_image.specs.Limits.{IsWithinLimits};
ghost use Rattle.fk_machine.specs.Run.{after};
ghost use Rattle.fk_machine.specs.View.{machine_of};
ghost use Rattle.fk_top.specs.Ending.{outcome_of, run_text, variable_of, writing_of};
ghost use Rattle.fk_top.specs.Outcome.{EndsOn, Prints, most_numbers};

use crate::ending::{Ending, refused};
use crate::machine_run::{MachineRun, RunText};
use crate::refused::input_report_of;
use crate::shown::give_shown;
use crate::status::Status;
use crate::variable::Variable;
use fk_image::Image;
use fk_machine::{Machine, Stand};
use fk_num::MOST_DATA_WORDS;
use fk_ports::{Failed, Sink};
use fk_top_input::read_input;
use fk_top_words::RunWords;
use fk_trace::run_trace;
use std::alloc::{AllocError, Global};

/// The run of an image on an input text. Fails if there isn't enough memory.
pub fn run_ending<'a>(
    alloc: Global,
    image: Image,
    text: &[u8],
    run: RunWords,
    written: RunText<'a>,
) -> Result<Ending<'a>, AllocError>
    requires limits { IsWithinLimits image }
    ensures { IfOk result (λ e. EndsOn image text.now run.harts run.cycles
        (writing_of written.entry) (outcome_of e)) }
{
    let limit = most_numbers(image.globals.len());
    let input = match read_input(alloc, text, limit) {
        Ok(numbers) => numbers,
        Err(fault) => return refused(alloc, Status::InputRefused, input_report_of(fault)),
    };
    let machine = Machine::new(alloc, &image, input.as_slice(), run.harts)?;
    Ok(Ending::Runs(MachineRun {
        machine,
        image,
        bound: run.cycles,
        text: written,
    }))
}

/// The most numbers of an input text. There are fewer where the globals leave less room: with the
/// input they have at most 524,288 words.
const MOST_NUMBERS: usize = 65_536;

/// The most numbers of an input beside this many globals.
pub fn most_numbers(globals: usize) -> u32
    requires { globals ≤ most_data_words }
    ensures { result ≡ most_numbers globals }
{
    MOST_NUMBERS.min(MOST_DATA_WORDS as usize - globals) as u32
}

/// Runs a machine of which no cycle was run, until it ends or the bound on the cycles is reached,
/// and gives what is written of the run. It gives the status of the machine, and takes no memory.
pub fn give_run<K: Sink>(
    machine: &mut Machine,
    bound: u32,
    text: RunText,
    out: &mut K,
) -> Result<Stand, Failed>
    requires { (machine_of machine.old).begun ≡ 0 }
    ensures machine { OnOk result (machine_of machine.new ≡ after bound (machine_of machine.old)) }
    ensures stand { IfOk result (λ stand. stand ≡ (machine_of machine.new).stand) }
    ensures all { OnOk result (K.taken out.new ≡ append_known (K.taken out.old)
        (run_text bound (machine_of machine.old) (writing_of text.entry))) }
    ensures prefix { OnErr result (TakesPrefix (K.taken out.old) (K.taken out.new)
        (run_text bound (machine_of machine.old) (writing_of text.entry))) }
    ensures fault { OnErr result (HasRisen (K.faults out.old) (K.faults out.new)) }
    ensures steady { OnOk result (K.faults out.new ≡ K.faults out.old) }
{
    match text {
        RunText::Output(variable) => give_output(machine, bound, variable, out),
        RunText::Trace => run_trace(machine, bound, out),
    }
}

// The same for what the program prints, followed by the line of a variable, if one is shown.
fn give_output<K: Sink>(
    machine: &mut Machine,
    bound: u32,
    variable: Option<Variable>,
    out: &mut K,
) -> Result<Stand, Failed>
    requires { (machine_of machine.old).begun ≡ 0 }
    ensures machine { OnOk result (machine_of machine.new ≡ after bound (machine_of machine.old)) }
    ensures stand { IfOk result (λ stand. stand ≡ (machine_of machine.new).stand) }
    ensures all { OnOk result (K.taken out.new ≡ append_known (K.taken out.old)
        (run_text bound (machine_of machine.old)
        (Prints (option_map variable_of variable.entry)))) }
    ensures prefix { OnErr result (TakesPrefix (K.taken out.old) (K.taken out.new)
        (run_text bound (machine_of machine.old)
        (Prints (option_map variable_of variable.entry)))) }
    ensures fault { OnErr result (HasRisen (K.faults out.old) (K.faults out.new)) }
    ensures steady { OnOk result (K.faults out.new ≡ K.faults out.old) }
{
    let stand = machine.run_to(bound, out)?;
    let Some(variable) = variable else {
        return Ok(stand);
    };
    give_shown(out, machine, variable)?;
    Ok(stand)
}
