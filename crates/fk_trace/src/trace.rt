//! Whole traces.

ghost use Rattle.std.specs.Prelude.{◌≡◌, ◌+◌, ◌<◌, ◌^◌, length, IfOk, OnErr, OnOk};
ghost use Rattle.std.specs.Io.KnownBytes.{append_known};
ghost use Rattle.fk_ports.specs.Faults.{HasRisen};
ghost use Rattle.fk_ports.specs.Known.{TakesPrefix};
ghost use Rattle.fk_machine.specs.Run.{after, committed};
ghost use Rattle.fk_machine.specs.View.{machine_of};
ghost use Rattle.fk_trace.specs.Early.{StoppedInCycle, TracedEarly, lines_in, trace_of};
ghost use Rattle.fk_trace.specs.Text.{cycle_lines, first_lines, last_line};

use crate::line::give_cycle;
use crate::short_text::ShortText;
use fk_machine::{Machine, Stand};
use fk_num::unsigned_text;
use fk_ports::{Failed, Sink, give_all, give_pieces};

/// Runs a machine of which no cycle was run, until it ends or `bound` cycles are begun, and gives
/// the trace of the run in place of what the program prints. It gives the status of the machine.
/// After each cycle it gives the lines of that cycle. It takes no memory.
///
/// If `out` fails, the cycle whose lines were being given is the last that the machine has run.
pub fn run_trace<K: Sink>(machine: &mut Machine, bound: u32, out: &mut K) -> Result<Stand, Failed>
    requires { (machine_of machine.old).begun ≡ 0 }
    ensures machine { OnOk result (machine_of machine.new ≡ after bound (machine_of machine.old)) }
    ensures stand { IfOk result (λ stand. stand ≡ (machine_of machine.new).stand) }
    ensures trace { OnOk result (K.taken out.new
        ≡ append_known (K.taken out.old) (trace_of bound (machine_of machine.old))) }
    ensures early { OnErr result (TracedEarly bound (machine_of machine.old)
        (machine_of machine.new) (K.taken out.old) (K.taken out.new)) }
    ensures prefix { OnErr result (TakesPrefix (K.taken out.old) (K.taken out.new)
        (trace_of bound (machine_of machine.old))) }
    ensures fault { OnErr result (HasRisen (K.faults out.old) (K.faults out.new)) }
    ensures steady { OnOk result (K.faults out.new ≡ K.faults out.old) }
{
    give_first_lines(out, machine.harts())?;
    trace_for(machine, bound, out)?;
    give_last_line(out, machine.cycles())?;
    Ok(machine.stand())
}

// Gives the first two lines.
fn give_first_lines<K: Sink>(out: &mut K, harts: u32) -> Result<(), Failed>
    ensures all { OnOk result
        (K.taken out.new ≡ append_known (K.taken out.old) (first_lines harts)) }
    ensures prefix { OnErr result
        (TakesPrefix (K.taken out.old) (K.taken out.new) (first_lines harts)) }
    ensures fault { OnErr result (HasRisen (K.faults out.old) (K.faults out.new)) }
    ensures steady { OnOk result (K.faults out.new ≡ K.faults out.old) }
{
    let number = unsigned_text(harts);
    give_pieces(
        out,
        &[b"fork95 trace 1\n", b"harts ", number.as_slice(), b"\n"],
    )
}

// Gives the last line.
fn give_last_line<K: Sink>(out: &mut K, cycles: u32) -> Result<(), Failed>
    ensures all { OnOk result
        (K.taken out.new ≡ append_known (K.taken out.old) (last_line cycles)) }
    ensures prefix { OnErr result
        (TakesPrefix (K.taken out.old) (K.taken out.new) (last_line cycles)) }
    ensures fault { OnErr result (HasRisen (K.faults out.old) (K.faults out.new)) }
    ensures steady { OnOk result (K.faults out.new ≡ K.faults out.old) }
{
    let number = unsigned_text(cycles);
    give_pieces(out, &[b"end ", number.as_slice(), b"\n"])
}

// Gives the lines of the machine's last cycle, at once if they are short.
fn give_lines<K: Sink>(out: &mut K, machine: &Machine) -> Result<(), Failed>
    ensures all { OnOk result (K.taken out.new ≡ append_known (K.taken out.old)
        (cycle_lines (machine_of machine.now).begun (committed (machine_of machine.now)))) }
    ensures prefix { OnErr result (TakesPrefix (K.taken out.old) (K.taken out.new)
        (cycle_lines (machine_of machine.now).begun (committed (machine_of machine.now)))) }
    ensures fault { OnErr result (HasRisen (K.faults out.old) (K.faults out.new)) }
    ensures steady { OnOk result (K.faults out.new ≡ K.faults out.old) }
{
    let mut text = ShortText::new();
    match give_cycle(&mut text, machine) {
        Ok(()) => give_all(out, text.bytes()),
        Err(Failed) => give_cycle(out, machine),
    }
}

// Runs `cycles` cycles, or fewer if the machine ends before, and gives the lines of each, in order.
fn trace_for<K: Sink>(machine: &mut Machine, cycles: u32, out: &mut K) -> Result<(), Failed>
    requires { (machine_of machine.old).begun + cycles < 2 ^ 32 }
    ensures machine { OnOk result (machine_of machine.new ≡ after cycles (machine_of machine.old)) }
    ensures lines { OnOk result (K.taken out.new
        ≡ append_known (K.taken out.old) (lines_in cycles (machine_of machine.old))) }
    ensures early { OnErr result (StoppedInCycle cycles (machine_of machine.old)
        (machine_of machine.new) (K.taken out.old) (K.taken out.new)) }
    ensures fault { OnErr result (HasRisen (K.faults out.old) (K.faults out.new)) }
    ensures steady { OnOk result (K.faults out.new ≡ K.faults out.old) }
{
    let mut left = cycles;
    while left > 0 && machine.stand() == Stand::Running {
        left -= 1;
        machine.cycle();
        give_lines(out, machine)?;
    }
    Ok(())
}
