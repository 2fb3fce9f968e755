//! Tables with which a walk looks up functions and group frames in one step.

ghost use Rattle.std.specs.Prelude.{◌≡◌, ◌+◌, ◌<◌, ◌++◌, ◌==◌, ℕ, Bool, List, IfOk, OnOk, drop};
ghost use Rattle.std.specs.Prelude.{length, replicate, slice_get, if◌then◌else◌};
ghost use Rattle.fk_syntax.specs.Program.{ItemTree};
ghost use Rattle.fk_layout_walk.specs.Known.{tables_of, items_in, called, framed_in, IsSound};
ghost use Rattle.fk_syntax.specs.ProgramView.{item_of};
ghost use Rattle.fk_layout_lookup.specs.Lookup.{Tells, TellsCallees, TellsFrames, defined_by};
ghost use Rattle.fk_layout_lookup.specs.Lookup.{with_frame};

use fk_layout_walk::{Framed, ProgramTables};
use fk_meaning_forms::Region;
use fk_syntax::Item;
use std::alloc::{AllocError, Global};

const UNFRAMED: Framed = Framed {
    first: None,
    second: None,
};

/// The function that each binding names, and the group frames of each token.
#[derive(Drop)]
pub struct Lookup {
    callees: Vec<Option<usize>>,
    framed: Vec<Framed>,
}

impl Lookup {
    /// The lookup tables of a text, by its items and tables alone. It takes time and memory linear
    /// in these, in the greatest binding of a function, and in the last token that has a group
    /// frame. It fails only if there isn't enough memory.
    pub fn of(alloc: Global, known: &ProgramTables) -> Result<Lookup, AllocError>
        ensures { IfOk result (λ lookup. Tells known.now lookup) }
    {
        Ok(Lookup {
            callees: find_callees(alloc, known)?,
            framed: find_frames(alloc, known)?,
        })
    }

    /// The tables of a text completed by these lookup tables.
    pub fn complete<'p, 't>(&'p self, known: ProgramTables<'p, 't>) -> ProgramTables<'p, 't>
        requires { Tells known self.now }
        ensures sound { IsSound result }
        ensures tables { tables_of result ≡ tables_of known.entry }
        ensures items { items_in result ≡ items_in known.entry }
    {
        ProgramTables {
            notes: known.notes,
            kinds: known.kinds,
            slots: known.slots,
            regions: known.regions,
            items: known.items,
            callees: &self.callees,
            framed: &self.framed,
        }
    }
}

// Extends a list with `fill` until it has an element at `index`.
fn reach<T: Copy + Drop>(list: &mut Vec<T>, index: usize, fill: T) -> Result<(), AllocError>
    ensures long { OnOk result (index < length list.new.items) }
    ensures more { OnOk result
        ((n : ℕ) × (list.new.items ≡ list.old.items ++ replicate n fill)) }
{
    while list.len() <= index {
        list.push(fill)?;
    }
    Ok(())
}

// Notes that a binding names the function of the item at `index`.
fn mean(callees: &mut Vec<Option<usize>>, binding: usize, index: usize) -> Result<(), AllocError>
    ensures { OnOk result ((all : List ItemTree) (b : ℕ)
        → called (slice_get callees.new.items b) all
        ≡ called (if binding == b then Some (Some index) else slice_get callees.old.items b) all) }
{
    reach(callees, binding, None)?;
    callees[binding] = Some(index);
    Ok(())
}

// The binding of the function of an item, if it has a body.
fn defined(known: &ProgramTables, item: &Item) -> Option<u32>
    ensures { result ≡ defined_by (tables_of known.now) (item_of item.now) }
{
    match item {
        Item::Function(function) => match &function.body {
            Some(_) => Some(known.note(function.name.at).binding),
            None => None,
        },
        Item::Struct(_, _) | Item::Variables(_) => None,
    }
}

// Notes the function of the item at `index`, if it has a body.
fn note_callee(
    known: &ProgramTables,
    callees: &mut Vec<Option<usize>>,
    index: usize,
) -> Result<(), AllocError>
    requires { TellsCallees (tables_of known.now) (items_in known.now)
        (drop (index + 1) (items_in known.now)) callees.old.items }
    ensures { OnOk result (TellsCallees (tables_of known.now) (items_in known.now)
        (drop index (items_in known.now)) callees.new.items) }
{
    let Some(item) = known.items.get(index) else {
        return Ok(());
    };
    match defined(known, item) {
        Some(binding) => mean(callees, binding as usize, index),
        None => Ok(()),
    }
}

// If several functions have one binding, it names the first of them, which is noted last.
fn find_callees(alloc: Global, known: &ProgramTables) -> Result<Vec<Option<usize>>, AllocError>
    ensures { IfOk result (λ callees. TellsCallees (tables_of known.now) (items_in known.now)
        (items_in known.now) callees.items) }
{
    let mut callees = Vec::new(alloc);
    let mut index = known.items.len();
    while index > 0 {
        index -= 1;
        note_callee(known, &mut callees, index)?;
    }
    Ok(callees)
}

// Notes that a part of a token has a group frame. It takes precedence over the frames noted before.
fn note_part(framed: &mut Vec<Framed>, region: Region, second: bool) -> Result<(), AllocError>
    ensures { OnOk result ((at : ℕ) (part : Bool)
        → framed_in (slice_get framed.new.items at) part
        ≡ with_frame region second at part (framed_in (slice_get framed.old.items at) part)) }
{
    let at = region.at as usize;
    reach(framed, at, UNFRAMED)?;
    if second {
        framed[at].second = Some(region);
    } else {
        framed[at].first = Some(region);
    }
    Ok(())
}

// Notes the group frame of a region. The parts of a token have the numbers 0 and 1.
fn note_frame(
    known: &ProgramTables,
    framed: &mut Vec<Framed>,
    index: usize,
) -> Result<(), AllocError>
    requires here { index < length known.now.regions.now }
    requires told { TellsFrames (tables_of known.now) (drop (index + 1) known.now.regions.now)
        framed.old.items }
    ensures { OnOk result (TellsFrames (tables_of known.now)
        (drop index known.now.regions.now) framed.new.items) }
{
    let region = known.regions[index];
    match region.part {
        0 => note_part(framed, region, false),
        1 => note_part(framed, region, true),
        _ => Ok(()),
    }
}

fn find_frames(alloc: Global, known: &ProgramTables) -> Result<Vec<Framed>, AllocError>
    ensures { IfOk result
        (λ framed. TellsFrames (tables_of known.now) known.now.regions.now framed.items) }
{
    let mut framed = Vec::new(alloc);
    let mut index = known.regions.len();
    while index > 0 {
        index -= 1;
        note_frame(known, &mut framed, index)?;
    }
    Ok(framed)
}
