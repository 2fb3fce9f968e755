//! The ranges of a line.

ghost use Rattle.std.specs.Prelude.{◌≡◌, ◌∷◌, ◌+◌, ◌<◌, ◌≤◌, ◌^◌, ℕ, List, Option, IfOk, OnErr};
ghost use Rattle.std.specs.Prelude.{OnOk};
ghost use Rattle.std.specs.Io.KnownBytes.{append_known};
ghost use Rattle.fk_ports.specs.Faults.{HasRisen};
ghost use Rattle.fk_ports.specs.Known.{IsGiven, TakesPrefix};
ghost use Rattle.fk_machine.specs.Run.{committed};
ghost use Rattle.fk_machine.specs.View.{machine_of};
ghost use Rattle.fk_trace.specs.Ranges.{numbers_of, range_of, text_from};
ghost use Rattle.fk_trace.specs.Text.{range_text, ranges_text};

use crate::column::Column;
use crate::hart_range::HartRange;
use fk_machine::Machine;
use fk_num::unsigned_text;
use fk_ports::{Failed, Sink, give_pieces};

/// Gives the ranges of the harts of which a column tells.
pub fn give_ranges<K: Sink>(out: &mut K, machine: &Machine, column: Column) -> Result<(), Failed>
    ensures all { OnOk result (K.taken out.new ≡ append_known (K.taken out.old)
        (ranges_text column 0 (numbers_of column (committed (machine_of machine.now))))) }
    ensures prefix { OnErr result (TakesPrefix (K.taken out.old) (K.taken out.new)
        (ranges_text column 0 (numbers_of column (committed (machine_of machine.now))))) }
    ensures fault { OnErr result (HasRisen (K.faults out.old) (K.faults out.new)) }
    ensures steady { OnOk result (K.faults out.new ≡ K.faults out.old) }
{
    let mut range = HartRange {
        first: 0,
        last: 0,
        number: column.number_in(machine.committed(0)),
    };
    for hart in 1..machine.harts() {
        range = go_on(
            out,
            range,
            column.number_in(machine.committed(hart)),
            column,
        )?;
    }
    give_range(out, range, column)
}

// The range of the next hart, which has this number: the old range with that hart, or, if the
// number is another one, a new range. The old one is then given.
fn go_on<K: Sink>(
    out: &mut K,
    range: HartRange,
    number: u32,
    column: Column,
) -> Result<HartRange, Failed>
    requires ordered { range.first ≤ range.last }
    requires next { range.last + 1 < 2 ^ 32 }
    ensures ordered { IfOk result (λ r. r.first ≤ r.last) }
    ensures next { IfOk result (λ r. r.last ≡ range.last + 1) }
    ensures given { (bytes rest : List ℕ) (before : Option (List ℕ))
        → IsGiven bytes (text_from column range (number ∷ rest)) before (K.taken out.old)
        → IfOk result (λ r. IsGiven bytes (text_from column r rest) before (K.taken out.new)) }
    ensures prefix { (bytes rest : List ℕ) (before : Option (List ℕ))
        → IsGiven bytes (text_from column range (number ∷ rest)) before (K.taken out.old)
        → OnErr result (TakesPrefix before (K.taken out.new) bytes) }
    ensures fault { OnErr result (HasRisen (K.faults out.old) (K.faults out.new)) }
    ensures steady { OnOk result (K.faults out.new ≡ K.faults out.old) }
{
    let hart = range.last + 1;
    if number == range.number {
        return Ok(HartRange {
            first: range.first,
            last: hart,
            number,
        });
    }
    give_range(out, range, column)?;
    Ok(HartRange {
        first: hart,
        last: hart,
        number,
    })
}

// Gives a range, if the column tells of its harts.
fn give_range<K: Sink>(out: &mut K, range: HartRange, column: Column) -> Result<(), Failed>
    ensures all { OnOk result (K.taken out.new ≡ append_known (K.taken out.old)
        (range_text column (range_of range))) }
    ensures prefix { OnErr result (TakesPrefix (K.taken out.old) (K.taken out.new)
        (range_text column (range_of range))) }
    ensures fault { OnErr result (HasRisen (K.faults out.old) (K.faults out.new)) }
    ensures steady { OnOk result (K.faults out.new ≡ K.faults out.old) }
{
    if !column.shows(range.number) {
        return Ok(());
    }
    let (first, last) = (unsigned_text(range.first), unsigned_text(range.last));
    match column {
        Column::Counts => {
            let count = unsigned_text(range.number);
            let pieces = [
                b" ",
                first.as_slice(),
                b"-",
                last.as_slice(),
                b"*",
                count.as_slice(),
            ];
            give_pieces(out, &pieces)
        }
        Column::Of(_) => give_pieces(out, &[b" ", first.as_slice(), b"-", last.as_slice()]),
    }
}
