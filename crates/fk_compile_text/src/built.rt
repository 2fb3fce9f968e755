//! A text that keeps all rules and has a layout, with everything that is known of it.

ghost use Rattle.std.specs.Prelude.{◌≡◌, ◌≤◌, ◌^◌, IfErr, IfOk, OnOk, length};
ghost use Rattle.std.specs.Prelude.{vec_len};
ghost use Rattle.fk_num.specs.Limits.{most_data_words, most_text_bytes};
ghost use Rattle.fk_syntax.specs.ProgramView.{program_of};
ghost use Rattle.fk_syntax.specs.WellFormed.{IsWellFormed};
ghost use Rattle.fk_layout_walk.specs.Known.{IsSound, items_in, tables_of};
ghost use Rattle.fk_layout.specs.Layout.{IsLayout, tables_by};
ghost use Rattle.fk_layout.specs.Refusal.{Fits};
ghost use Rattle.fk_compile_text.specs.Refusal.{IsRefusedText};
ghost use Rattle.fk_compile_text.specs.Text.{Finds, IsChecked};

use crate::laid::layout_of;
use crate::refusal::Refusal;
use crate::text::{Checked, checked_text};
use fk_layout::{Layout, known_of};
use fk_layout_lookup::Lookup;
use fk_layout_walk::ProgramTables;
use fk_syntax::{Facts, Program};
use std::alloc::{AllocError, Global};

/// A text that keeps all rules, what is known of it, where all that it has lies, and what is looked
/// up in it.
#[derive(Drop)]
pub struct Built<'a> {
    pub tree: Program<'a>,
    pub facts: Facts,
    pub layout: Layout<'a>,
    pub lookup: Lookup,
}

impl<'a> Built<'a> {
    /// What is known of the text.
    pub fn tables<'p>(&'p self) -> ProgramTables<'p, 'a>
        requires laid { IsLayout (program_of self.now.tree) self.now.facts self.now.layout }
        requires finds { Finds (program_of self.now.tree) self.now.facts self.now.lookup }
        ensures sound { IsSound result }
        ensures tables { tables_of result ≡ tables_by (program_of self.now.tree) self.now.facts }
        ensures items { items_in result ≡ (program_of self.now.tree).items }
    {
        let known = known_of(&self.tree, &self.facts, &self.layout.places);
        self.lookup.complete(known)
    }
}

// What is looked up in a text that has a layout. Memory is refused only where it was to the lookup.
fn lookup_of<'a>(alloc: Global, text: &Checked<'a>, layout: &Layout<'a>) -> Result<Lookup, Refusal>
    requires { IsLayout (program_of text.now.tree) text.now.facts layout.now }
    ensures finds { IfOk result (Finds (program_of text.now.tree) text.now.facts) }
    ensures memory { IfErr result (λ refusal. (e : AllocError) × (refusal ≡ Refusal.Memory e)) }
{
    let known = known_of(&text.tree, &text.facts, &layout.places);
    match Lookup::of(alloc, &known) {
        Ok(lookup) => Ok(lookup),
        Err(error) => Err(Refusal::Memory(error)),
    }
}

/// The tree of a text that keeps all rules, its facts, its layout and its lookup. It takes time and
/// memory linear in the text and the words of its shared variables.
///
/// # Errors
///
/// `SourceTooLong` for a text of more than 1,048,576 bytes; `BadByte`, `OpenComment`, `OpenString`
/// or `WideNumber` for one that has no tokens, by the fault at the least place; `Unexpected`,
/// `EndOfText` or `Nesting` for one whose tokens have no tree by the grammar of Fork95, by the
/// first token that fits nowhere, by the end, or by the first token that opens level 129; `Rule`
/// for one that breaks a rule of the language, by the first rule.
///
/// A text that keeps all rules is refused by the first of these: `TooManySites`, with their number,
/// if it has more than 16,000 operations; `FrameTooLarge`, with the name of the first such function
/// and its words, if a private frame has more than 64 words; `GlobalsTooLarge`, with their number,
/// if its shared variables of file scope have more than 524,288 words. `Memory` if there isn't
/// enough memory, which no clause can say.
pub fn built_text<'a>(alloc: Global, source: &'a [u8]) -> Result<Built<'a>, Refusal>
    ensures checked { IfOk result (λ text. IsChecked source.now (program_of text.tree) text.facts) }
    ensures laid { IfOk result (λ text. IsLayout (program_of text.tree) text.facts text.layout) }
    ensures finds { IfOk result (λ text. Finds (program_of text.tree) text.facts text.lookup) }
    ensures fits { IfOk result (λ text. Fits (tables_by (program_of text.tree) text.facts)
        (program_of text.tree).items) }
    ensures well_formed { IfOk result (λ text. IsWellFormed (program_of text.tree)) }
    // A token has at least one byte.
    ensures small { IfOk result (λ text. text.tree.tokens ≤ 2 ^ 20) }
    // An item has at least two tokens.
    ensures few { IfOk result (λ text. vec_len text.tree.items ≤ most_data_words) }
    ensures short { OnOk result (length source.now ≤ most_text_bytes) }
    ensures refused { IfErr result (IsRefusedText source.now) }
{
    let checked = checked_text(alloc, source)?;
    let layout = layout_of(alloc, &checked)?;
    let lookup = lookup_of(alloc, &checked, &layout)?;
    Ok(Built {
        tree: checked.tree,
        facts: checked.facts,
        layout,
        lookup,
    })
}
