//! The layout of a text, and the reasons why it has none.

ghost use Rattle.std.specs.Prelude.{◌≤◌, ℕ, List, IfErr, IfOk, IfSome, IsNone, OnOk, length, map};
ghost use Rattle.fk_num.specs.Limits.{most_text_bytes};
ghost use Rattle.fk_syntax.specs.ProgramView.{item_of, program_of};
ghost use Rattle.fk_layout.specs.Layout.{IsLayout, tables_by};
ghost use Rattle.fk_layout.specs.Refusal.{Fits};
ghost use Rattle.fk_compile_text.specs.Refusal.{IsOfFunction, IsRefusedText, TellsFault};
ghost use Rattle.fk_compile_text.specs.Refusal.{TellsFrame};
ghost use Rattle.fk_compile_text.specs.Text.{HasFunctionAt, IsChecked, IsFunctionAt};

use crate::refusal::Refusal;
use crate::text::Checked;
use fk_layout::{Layout, LayoutFault, lay_out};
use fk_syntax::{Item, Place};
use std::alloc::{AllocError, Global};

/// The layout of a text that keeps all rules, or what there is too much of.
pub(crate) fn layout_of<'a>(alloc: Global, text: &Checked<'a>) -> Result<Layout<'a>, Refusal>
    ensures laid { IfOk result (IsLayout (program_of text.now.tree) text.now.facts) }
    ensures fits { OnOk result (Fits (tables_by (program_of text.now.tree) text.now.facts)
        (program_of text.now.tree).items) }
    ensures refused { IfErr result (λ refusal. (source : List ℕ) → length source ≤ most_text_bytes
        → IsChecked source (program_of text.now.tree) text.now.facts
        → IsRefusedText source refusal) }
{
    match lay_out(alloc, &text.tree, &text.facts) {
        Ok(layout) => Ok(layout),
        Err(fault) => Err(refusal_by(alloc, &text.tree.items, fault)),
    }
}

// The refusal for the fault of a layout.
fn refusal_by(alloc: Global, items: &[Item], fault: LayoutFault) -> Refusal
    requires { IsOfFunction (map item_of items.now) fault }
    ensures { TellsFault (map item_of items.now) fault result }
{
    match fault {
        LayoutFault::TooManySites(count) => Refusal::TooManySites(count),
        LayoutFault::FrameTooLarge(place, words) => frame_too_large(alloc, items, place, words),
        LayoutFault::GlobalsTooLarge(words) => Refusal::GlobalsTooLarge(words),
        LayoutFault::Memory => Refusal::Memory(AllocError),
    }
}

// The refusal for the private frame of the function at a place, which has this many words.
fn frame_too_large(alloc: Global, items: &[Item], place: Place, words: u32) -> Refusal
    requires { (name : List ℕ) × HasFunctionAt (map item_of items.now) place name }
    ensures { TellsFrame (map item_of items.now) place words result }
{
    let Some(name) = name_at(items, place) else {
        unreachable!();
    };
    match name.to_vec(alloc) {
        Ok(name) => Refusal::FrameTooLarge(name, words),
        Err(error) => Refusal::Memory(error),
    }
}

// The name of the function at a place.
fn name_at<'a>(items: &[Item<'a>], place: Place) -> Option<&'a [u8]>
    ensures some { IfSome result (λ name. HasFunctionAt (map item_of items.now) place name.now) }
    ensures none { IsNone result → (name : List ℕ)
        → ¬ HasFunctionAt (map item_of items.now) place name }
{
    for item in items {
        if let Some(name) = name_of(item, place) {
            return Some(name);
        }
    }
    None
}

// The name of an item, if it is a function at this place.
fn name_of<'a>(item: &Item<'a>, place: Place) -> Option<&'a [u8]>
    ensures some { IfSome result (λ name. IsFunctionAt place name.now (item_of item.now)) }
    ensures none { IsNone result → (name : List ℕ) → ¬ IsFunctionAt place name (item_of item.now) }
{
    match item {
        Item::Function(function) if function.name.place == place => Some(function.name.bytes),
        _ => None,
    }
}
