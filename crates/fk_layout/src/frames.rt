//! The number of words of the frames of functions.

ghost use Rattle.std.specs.Prelude.{◌≡◌, ◌≢◌, ◌+◌, ◌-◌, ◌^◌, ◌<◌, ◌≤◌, ◌∷◌, ◌++◌, [], false};
ghost use Rattle.std.specs.Prelude.{List, length, map, min, IfOk, IfErr, OnOk, None};
ghost use Rattle.fk_syntax.specs.Program.{FunctionTree};
ghost use Rattle.fk_syntax.specs.ProgramView.{declared_of, function_of, item_of};
ghost use Rattle.fk_meaning_forms.specs.Code.{size};
ghost use Rattle.fk_meaning_forms.specs.Program.{functions_of};
ghost use Rattle.fk_layout_walk.specs.Known.{tables_of, items_in, IsSound};
ghost use Rattle.fk_layout_walk_statements.specs.Texts.{code_in, sites_of_text};
ghost use Rattle.fk_layout_slots.specs.Slots.{own_of, owns_of};
ghost use Rattle.fk_layout_globals.specs.Variables.{kept};
ghost use Rattle.fk_layout.specs.Frames as f;
ghost use Rattle.fk_layout.specs.Frames.{told_in, file_privates, functions_behind};
ghost use Rattle.fk_layout.specs.Refusal.{TellsLarge};

use crate::sites::LayoutFault;
use fk_layout_sizes::extent_of;
use fk_layout_slots::Own;
use fk_layout_walk::ProgramTables;
use fk_meaning_forms::FrameSize;
use fk_syntax::{Declared, Function, Item};
use std::alloc::{AllocError, Global};

/// The greatest number of words of a private frame.
pub const MOST_PRIVATE_WORDS: u64 = 64;

// Adds 1 to a count if a variable is private. The count stays at 2^64 - 1 when it gets there.
fn with_variable(count: u64, variable: &Declared) -> u64
    ensures { result
        ≡ min (count + length (kept false (declared_of variable.now ∷ []))) (2 ^ 64 - 1) }
{
    if variable.shared {
        count
    } else {
        count.saturating_add(1)
    }
}

// Adds the number of private ones among these variables to a count.
#[tactic(auto, using(crate::proofs::Sizing::kept_more))]
fn with_variables(count: u64, variables: &[Declared]) -> u64
    ensures { result
        ≡ min (count + length (kept false (map declared_of variables.now))) (2 ^ 64 - 1) }
{
    let mut behind = count;
    for variable in variables {
        behind = with_variable(behind, variable);
    }
    behind
}

// Adds the number of private variables of file scope in an item to a count.
fn with_item(count: u64, item: &Item) -> u64
    ensures { result ≡ min (count + file_privates (item_of item.now ∷ [])) (2 ^ 64 - 1) }
{
    match item {
        Item::Variables(variables) => with_variables(count, variables),
        Item::Struct(_, _) | Item::Function(_) => count,
    }
}

// The number of private variables of file scope in a text; at most 2^64 - 1.
#[tactic(auto, using(crate::proofs::Sizing::file_privates_more))]
fn count_file_privates(items: &[Item]) -> u64
    ensures { result ≡ min (file_privates (map item_of items.now)) (2 ^ 64 - 1) }
{
    let mut count = 0;
    for item in items {
        count = with_item(count, item);
    }
    count
}

// Appends the function of an item to a list, if it has a body.
fn keep<'p, 'a>(list: &mut Vec<&'p Function<'a>>, item: &'p Item<'a>) -> Result<(), AllocError>
    ensures { OnOk result (functions_behind list.new.items
        ≡ functions_behind list.old.items ++ functions_of (item_of item.now ∷ [])) }
{
    match item {
        Item::Function(function) => match &function.body {
            Some(_) => Ok(list.push(function)?),
            None => Ok(()),
        },
        Item::Struct(_, _) | Item::Variables(_) => Ok(()),
    }
}

// The functions of a text that have a body, in its order.
#[tactic(auto, using(crate::proofs::Sizing::functions_of_more))]
fn functions_in<'p, 'a>(
    alloc: Global,
    items: &'p [Item<'a>],
) -> Result<Vec<&'p Function<'a>>, AllocError>
    ensures { IfOk result (λ list. functions_behind list.items
        ≡ functions_of (map item_of items.now)) }
{
    let mut list = Vec::new(alloc);
    for item in items {
        keep(&mut list, item)?;
    }
    Ok(list)
}

// The number of private places of a function, where the file has `file` of them; at most 2^64 - 1.
fn privates_of(known: &ProgramTables, file: u64, own: Own, function: &Function) -> u64
    requires file { file ≡ min (file_privates (items_in known.now)) (2 ^ 64 - 1) }
    requires own { own ≡ own_of (told_in (tables_of known.now)) (function_of function.now) }
    ensures { result ≡ min (f.privates_of (tables_of known.now) (items_in known.now)
        (function_of function.now)) (2 ^ 64 - 1) }
{
    let privates = u64::from(own.privates);
    if function.name.bytes == b"main".as_slice() {
        privates.saturating_add(file)
    } else {
        privates
    }
}

// The number of words of the private frame of a function; at most 2^64 - 1.
fn private_words(known: &ProgramTables, file: u64, own: Own, function: &Function) -> u64
    requires sound { IsSound known.now }
    requires file { file ≡ min (file_privates (items_in known.now)) (2 ^ 64 - 1) }
    requires own { own ≡ own_of (told_in (tables_of known.now)) (function_of function.now) }
    requires small { size (code_in known.now (function_of function.now)) < 2 ^ 31 }
    ensures { result ≡ min (f.private_words (tables_of known.now) (items_in known.now)
        (function_of function.now)) (2 ^ 64 - 1) }
{
    let privates = privates_of(known, file, own, function);
    let extent = extent_of(known, function);
    let nested = extent.nesting.saturating_mul(4);
    privates
        .saturating_add(8)
        .saturating_add(extent.values)
        .saturating_add(nested)
}

// The frame of a function, or the fault that it is too large.
fn frame_of(
    known: &ProgramTables,
    file: u64,
    own: Own,
    function: &Function,
) -> Result<FrameSize, LayoutFault>
    requires sound { IsSound known.now }
    requires file { file ≡ min (file_privates (items_in known.now)) (2 ^ 64 - 1) }
    requires own { own ≡ own_of (told_in (tables_of known.now)) (function_of function.now) }
    requires small { size (code_in known.now (function_of function.now)) < 2 ^ 31 }
    ensures frame { IfOk result (λ frame. frame
        ≡ f.frame_of (tables_of known.now) (items_in known.now) (function_of function.now)) }
    ensures fits { OnOk result ((others : List FunctionTree)
        → f.first_large_in (tables_of known.now) (items_in known.now)
        (function_of function.now ∷ others)
        ≡ f.first_large_in (tables_of known.now) (items_in known.now) others) }
    ensures large { IfErr result (λ fault. (others : List FunctionTree)
        → TellsLarge (f.first_large_in (tables_of known.now) (items_in known.now)
        (function_of function.now ∷ others)) fault) }
    ensures no_memory { IfErr result (λ fault. fault ≢ LayoutFault.Memory) }
{
    let words = private_words(known, file, own, function);
    if words > MOST_PRIVATE_WORDS {
        let told = words.min(u64::from(u32::MAX));
        return Err(LayoutFault::FrameTooLarge(function.name.place, told as u32));
    }
    Ok(FrameSize {
        private: words as u32,
        shared: own.words,
    })
}

/// The frames of all functions of a text that have a body, or the fault of the first one that is
/// too large. `owns` has what each function takes by itself. It takes time and memory linear in the
/// text.
pub(crate) fn fitting_frames(
    alloc: Global,
    known: &ProgramTables,
    owns: &[Own],
) -> Result<Vec<FrameSize>, LayoutFault>
    requires sound { IsSound known.now }
    requires owns { owns.now ≡ owns_of (told_in (tables_of known.now)) (items_in known.now) }
    requires few { length (sites_of_text known.now) ≤ 16000 }
    ensures frames { IfOk result (λ list. list.items
        ≡ f.frame_sizes (tables_of known.now) (items_in known.now)) }
    ensures fits { OnOk result (f.first_large (tables_of known.now) (items_in known.now) ≡ None) }
    ensures refused { IfErr result
        (TellsLarge (f.first_large (tables_of known.now) (items_in known.now))) }
{
    let file = count_file_privates(known.items);
    let Ok(functions) = functions_in(alloc, known.items) else {
        return Err(LayoutFault::Memory);
    };
    let mut frames = Vec::new(alloc);
    for index in 0..functions.len() {
        let frame = frame_of(known, file, owns[index], functions[index])?;
        let Ok(()) = frames.push(frame) else {
            return Err(LayoutFault::Memory);
        };
    }
    Ok(frames)
}
