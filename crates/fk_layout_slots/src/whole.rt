//! The slots and frames of a text, and how much its functions take.

ghost use Rattle.std.specs.Prelude.{◌≡◌, map, IfOk};
ghost use Rattle.fk_syntax.specs.ProgramView.{item_of};
ghost use Rattle.fk_layout_slots.specs.Frames.{regions_of};
ghost use Rattle.fk_layout_slots.specs.Slots.{slots_of, owns_of};

use crate::frames::Frames;
use crate::known::TypeNotes;
use crate::places::Places;
use crate::tables::Slots;
use fk_syntax::{Item, Kind, Note};
use std::alloc::{AllocError, Global};

/// The slots and group frames of a text, by the notes of its tokens and by its types. It fails only
/// if there isn't enough memory.
pub fn slots(
    alloc: Global,
    items: &[Item],
    notes: &[Note],
    kinds: &[Kind],
) -> Result<Slots, AllocError>
    ensures slots { IfOk result (λ all. all.slots.items
        ≡ slots_of (record { notes = notes.now; kinds = kinds.now }) (map item_of items.now)) }
    ensures regions { IfOk result (λ all. all.regions.items
        ≡ regions_of (record { notes = notes.now; kinds = kinds.now }) (map item_of items.now)) }
    ensures owns { IfOk result (λ all. all.owns.items
        ≡ owns_of (record { notes = notes.now; kinds = kinds.now }) (map item_of items.now)) }
{
    let known = TypeNotes { notes, kinds };
    let regions = Frames::of(alloc, items, &known)?;
    let (slots, owns) = Places::of(alloc, items, &known)?;
    Ok(Slots {
        slots,
        regions,
        owns,
    })
}
