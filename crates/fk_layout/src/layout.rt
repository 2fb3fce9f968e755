//! The layout of a program.

ghost use Rattle.std.specs.Prelude.{◌≡◌, ◌≤◌, IfOk, IfErr, OnOk, None};
ghost use Rattle.fk_syntax.specs.ProgramView.{program_of};
ghost use Rattle.fk_layout_walk.specs.Known.{tables_of, items_in};
ghost use Rattle.fk_layout_slots.specs.Slots.{owns_of};
ghost use Rattle.fk_layout.specs.Frames.{told_in, first_large};
ghost use Rattle.fk_layout.specs.Refusal.{IsRefusal, Fits, count_of_sites, of_globals};
ghost use Rattle.fk_layout.specs.Layout.{IsLayout, ArePlaces, AreGlobals, AreSizes, tables_by};

use crate::frames::fitting_frames;
use crate::listed::{Site, all_sites};
use crate::sites::{LayoutFault, out_of_memory};
use fk_layout_globals::{GlobalRow, Globals, GlobalsFault, lay_globals};
use fk_layout_lookup::Lookup;
use fk_layout_slots::{Own, Slots, slots};
use fk_layout_walk::ProgramTables;
use fk_meaning_forms::FrameSize;
use fk_syntax::{Facts, Program};
use std::alloc::Global;

/// The layout of a program: where its variables lie, its frames and its sites.
#[derive(Drop)]
pub struct Layout<'a> {
    /// The shared variables of file scope, in the order of the text.
    pub rows: Vec<GlobalRow<'a>>,
    /// The initial values of all words of these rows.
    pub words: Vec<u32>,
    /// The initial values of the private variables of file scope, in the order of the text.
    pub firsts: Vec<u32>,
    /// Where the words of declarations, group frames and functions are.
    pub places: Slots,
    /// The frames of all functions with a body, in the order of the text.
    pub frames: Vec<FrameSize>,
    /// All operations, in the order of the code.
    pub sites: Vec<Site>,
}

// The operations and frames of a text.
#[derive(Drop)]
pub(crate) struct Sizes {
    pub(crate) sites: Vec<Site>,
    pub(crate) frames: Vec<FrameSize>,
}

// The slots and group frames of a program, and how much its functions take by themselves.
fn places_of(alloc: Global, program: &Program, facts: &Facts) -> Result<Slots, LayoutFault>
    ensures places { IfOk result (ArePlaces (program_of program.now) facts.now) }
    ensures refused { IfErr result (λ fault. fault ≡ LayoutFault.Memory) }
{
    slots(alloc, &program.items, &facts.notes, &facts.kinds).map_err(out_of_memory)
}

// The variables of file scope of a program whose operations and frames fit.
fn globals_of<'a>(
    alloc: Global,
    program: &Program<'a>,
    facts: &Facts,
) -> Result<Globals<'a>, LayoutFault>
    requires few { count_of_sites (tables_by (program_of program.now) facts.now)
        (program_of program.now).items ≤ 16000 }
    requires small { first_large (tables_by (program_of program.now) facts.now)
        (program_of program.now).items ≡ None }
    ensures globals { IfOk result (AreGlobals (program_of program.now) facts.now) }
    ensures refused { IfErr result (IsRefusal (tables_by (program_of program.now) facts.now)
        (program_of program.now).items) }
{
    match lay_globals(alloc, &program.items, &facts.notes, &facts.kinds) {
        Ok(globals) => Ok(globals),
        Err(fault) => Err(of_globals(fault)),
    }
}

// Why there is no layout where the variables of file scope are refused.
fn of_globals(fault: GlobalsFault) -> LayoutFault
    ensures { result ≡ of_globals fault }
{
    match fault {
        GlobalsFault::TooLarge(words) => LayoutFault::GlobalsTooLarge(words),
        GlobalsFault::Memory => LayoutFault::Memory,
    }
}

/// What is known of a program of which nothing is looked up yet.
pub fn known_of<'p, 'a>(
    program: &'p Program<'a>,
    facts: &'p Facts,
    places: &'p Slots,
) -> ProgramTables<'p, 'a>
    requires { ArePlaces (program_of program.now) facts.now places.now }
    ensures tables { tables_of result ≡ tables_by (program_of program.now) facts.now }
    ensures items { items_in result ≡ (program_of program.now).items }
{
    ProgramTables {
        notes: &facts.notes,
        kinds: &facts.kinds,
        slots: &places.slots,
        regions: &places.regions,
        items: &program.items,
        callees: &[],
        framed: &[],
    }
}

// The operations and frames of a text whose lookup tables aren't made yet.
fn sizes_in(alloc: Global, known: ProgramTables, owns: &[Own]) -> Result<Sizes, LayoutFault>
    requires { owns.now ≡ owns_of (told_in (tables_of known)) (items_in known) }
    ensures sizes { IfOk result (AreSizes (tables_of known.entry) (items_in known.entry)) }
    ensures refused { IfErr result (IsRefusal (tables_of known.entry) (items_in known.entry)) }
{
    let lookup = Lookup::of(alloc, &known).map_err(out_of_memory)?;
    let whole = lookup.complete(known);
    let sites = all_sites(alloc, &whole)?;
    let frames = fitting_frames(alloc, &whole, owns)?;
    Ok(Sizes { sites, frames })
}

// The operations and frames of a program.
fn sizes_of<'p>(
    alloc: Global,
    program: &'p Program,
    facts: &'p Facts,
    places: &'p Slots,
) -> Result<Sizes, LayoutFault>
    requires { ArePlaces (program_of program.now) facts.now places.now }
    ensures sizes { IfOk result (AreSizes (tables_by (program_of program.now) facts.now)
        (program_of program.now).items) }
    ensures refused { IfErr result (IsRefusal (tables_by (program_of program.now) facts.now)
        (program_of program.now).items) }
{
    sizes_in(alloc, known_of(program, facts, places), &places.owns)
}

/// The layout of a program, by its facts. It is defined for every program and all facts. With the
/// program's own facts it takes time and memory linear in the text and the words of its shared
/// variables.
///
/// # Errors
/// The checks are in this order. `TooManySites`: exactly if the program has more than 16,000
/// operations, with their number. `FrameTooLarge`: exactly if a function has a private frame of
/// more than 64 words, with the place of the name of the first one and its words.
/// `GlobalsTooLarge`: exactly if the shared variables of file scope have more than 524,288 words,
/// with their number. `Memory`: if there isn't enough memory.
pub fn lay_out<'a>(
    alloc: Global,
    program: &Program<'a>,
    facts: &Facts,
) -> Result<Layout<'a>, LayoutFault>
    ensures laid { IfOk result (IsLayout (program_of program.now) facts.now) }
    ensures fits { OnOk result (Fits (tables_by (program_of program.now) facts.now)
        (program_of program.now).items) }
    ensures refused { IfErr result (IsRefusal (tables_by (program_of program.now) facts.now)
        (program_of program.now).items) }
{
    let places = places_of(alloc, program, facts)?;
    let sizes = sizes_of(alloc, &*program, &*facts, &places)?;
    let globals = globals_of(alloc, program, facts)?;
    Ok(Layout {
        rows: globals.rows,
        words: globals.words,
        firsts: globals.firsts,
        places,
        frames: sizes.frames,
        sites: sizes.sites,
    })
}
