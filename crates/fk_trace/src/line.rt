//! The lines of a cycle.

ghost use Rattle.std.specs.Prelude.{◌≡◌, OnErr, OnOk};
ghost use Rattle.std.specs.Io.KnownBytes.{append_known};
ghost use Rattle.fk_ports.specs.Faults.{HasRisen};
ghost use Rattle.fk_ports.specs.Known.{TakesPrefix};
ghost use Rattle.fk_machine.specs.Run.{committed};
ghost use Rattle.fk_machine.specs.View.{machine_of};
ghost use Rattle.fk_trace.specs.Ranges.{has_event};
ghost use Rattle.fk_trace.specs.Text.{all_events, cycle_lines, event_lines, head_text, line_if};
ghost use Rattle.fk_trace.specs.Text.{event_of, occurs};

use crate::column::{ALL_EVENTS, Column, name_of};
use crate::ranges::give_ranges;
use fk_machine::Machine;
use fk_num::unsigned_text;
use fk_ports::{Failed, Sink, give_all, give_pieces};

/// Gives the lines of the machine's last cycle.
pub fn give_cycle<K: Sink>(out: &mut K, machine: &Machine) -> Result<(), Failed>
    ensures all { OnOk result (K.taken out.new ≡ append_known (K.taken out.old)
        (cycle_lines (machine_of machine.now).begun (committed (machine_of machine.now)))) }
    ensures prefix { OnErr result (TakesPrefix (K.taken out.old) (K.taken out.new)
        (cycle_lines (machine_of machine.now).begun (committed (machine_of machine.now)))) }
    ensures fault { OnErr result (HasRisen (K.faults out.old) (K.faults out.new)) }
    ensures steady { OnOk result (K.faults out.new ≡ K.faults out.old) }
{
    give_line(out, machine, Column::Counts)?;
    if !has_event(machine) {
        return Ok(());
    }
    give_events(out, machine)
}

// Whether some hart has an event in the machine's last cycle. In most cycles none has.
fn has_event(machine: &Machine) -> bool
    ensures { result ≡ has_event (committed (machine_of machine.now)) }
{
    for hart in 0..machine.harts() {
        if event_of(machine.committed(hart)) != 0 {
            return true;
        }
    }
    false
}

// The number of the event of what a hart commits, 0 for none.
fn event_of(commit: Option<(u32, u32)>) -> u32
    ensures { result ≡ event_of commit }
{
    match commit {
        Some((_, event)) => event,
        None => 0,
    }
}

// Gives the lines of all events that occur in the machine's last cycle.
fn give_events<K: Sink>(out: &mut K, machine: &Machine) -> Result<(), Failed>
    ensures all { OnOk result (K.taken out.new ≡ append_known (K.taken out.old)
        (event_lines (machine_of machine.now).begun (committed (machine_of machine.now))
        all_events)) }
    ensures prefix { OnErr result (TakesPrefix (K.taken out.old) (K.taken out.new)
        (event_lines (machine_of machine.now).begun (committed (machine_of machine.now))
        all_events)) }
    ensures fault { OnErr result (HasRisen (K.faults out.old) (K.faults out.new)) }
    ensures steady { OnOk result (K.faults out.new ≡ K.faults out.old) }
{
    for event in &ALL_EVENTS {
        give_line(out, machine, Column::Of(*event))?;
    }
    Ok(())
}

// Gives the line of a column, if it tells of some hart.
fn give_line<K: Sink>(out: &mut K, machine: &Machine, column: Column) -> Result<(), Failed>
    ensures all { OnOk result (K.taken out.new ≡ append_known (K.taken out.old)
        (line_if column (machine_of machine.now).begun (committed (machine_of machine.now)))) }
    ensures prefix { OnErr result (TakesPrefix (K.taken out.old) (K.taken out.new)
        (line_if column (machine_of machine.now).begun (committed (machine_of machine.now)))) }
    ensures fault { OnErr result (HasRisen (K.faults out.old) (K.faults out.new)) }
    ensures steady { OnOk result (K.faults out.new ≡ K.faults out.old) }
{
    if !occurs(machine, column) {
        return Ok(());
    }
    give_head(out, machine.cycles(), column)?;
    give_ranges(out, machine, column)?;
    give_all(out, b"\n")
}

// Whether the line of a column tells of some hart.
fn occurs(machine: &Machine, column: Column) -> bool
    ensures { result ≡ occurs column (committed (machine_of machine.now)) }
{
    for hart in 0..machine.harts() {
        if column.shows(column.number_in(machine.committed(hart))) {
            return true;
        }
    }
    false
}

// Gives the beginning of a line.
fn give_head<K: Sink>(out: &mut K, cycle: u32, column: Column) -> Result<(), Failed>
    ensures all { OnOk result
        (K.taken out.new ≡ append_known (K.taken out.old) (head_text column cycle)) }
    ensures prefix { OnErr result
        (TakesPrefix (K.taken out.old) (K.taken out.new) (head_text column cycle)) }
    ensures fault { OnErr result (HasRisen (K.faults out.old) (K.faults out.new)) }
    ensures steady { OnOk result (K.faults out.new ≡ K.faults out.old) }
{
    let number = unsigned_text(cycle);
    match column {
        Column::Counts => give_pieces(out, &[b"c ", number.as_slice()]),
        Column::Of(event) => give_pieces(out, &[b"g ", number.as_slice(), b" ", name_of(event)]),
    }
}
