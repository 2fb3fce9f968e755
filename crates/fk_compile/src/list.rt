//! The flat list of a text, and the private words that its calls keep.

ghost use Rattle.std.specs.Prelude.{◌≡◌, ◌<◌, ◌≤◌, ◌^◌, ℕ, All, List as Listed, IfErr, IfOk};
ghost use Rattle.std.specs.Prelude.{length, sum_by};
ghost use Rattle.fk_syntax.specs.Program.{ProgramTree};
ghost use Rattle.fk_syntax.specs.ProgramView.{program_of};
ghost use Rattle.fk_syntax.specs.WellFormed.{IsWellFormed};
ghost use Rattle.fk_layout_walk.specs.Known.{IsSound, tables_of};
ghost use Rattle.fk_layout.specs.Layout.{IsLayout, tables_by};
ghost use Rattle.fk_layout.specs.Refusal.{Fits};
ghost use Rattle.fk_layout_walk_statements.specs.Texts.{functions_in};
ghost use Rattle.fk_lower_text.specs.Laid.{CanBeLaid};
ghost use Rattle.fk_lower.specs.Depths.{AreTold};
ghost use Rattle.fk_lower_text.specs.Depths.{depths_of};
ghost use Rattle.fk_lower_text.specs.Whole.{AreNumbered};
ghost use Rattle.fk_lower_text.specs.Lowered.{IsLowerable, HasSites};
ghost use Rattle.fk_core.specs.WellFormed.{LeadsOn};
ghost use Rattle.fk_core_levels.specs.Levels.{AreLevels};
ghost use Rattle.fk_core_liveness.specs.Live.{IsLeast, words_in};
ghost use Rattle.fk_gen.specs.declared.placed.Levels.{Levels};
ghost use Rattle.fk_lower_laws.specs.Certain.{HasFrames};
ghost use Rattle.fk_lower_laws.specs.Laws.{count_of_file};
ghost use Rattle.fk_gen_list.specs.Generable.{IsGenerable, most_words};
ghost use Rattle.fk_compile_text.specs.Refusal.{IsRefusedText};
ghost use Rattle.fk_compile_text.specs.Text.{Finds, IsChecked};
ghost use Rattle.fk_compile.specs.Lists.{HasListOf, IsGrouped};

use crate::image::are_words;
use crate::laws::{
    grouped_lists_are_generable, lists_are_of_tree, lists_are_small, lists_have_blocks,
};
use fk_check_laws::laws::correct_programs_fit;
use fk_compile_text::{Built, Refusal};
use fk_core::CoreOp;
use fk_core_flat::laws::forms_are_shaped;
use fk_core_liveness::{Set, live_words};
use fk_layout_walk::ProgramTables;
use fk_lower::LowerFault;
use fk_lower_laws::laws::{lowered_lists_can_have_groups, texts_can_be_laid};
use fk_lower_names::laws::{numbers_have_room, texts_are_proper};
use fk_lower_text::{entry_of_main, lower_text};
use fk_parse_laws::laws::{texts_are_trim, texts_have_words};
use std::alloc::{AllocError, Global};

/// The flat list of a text, and the index where its `main` begins.
#[derive(Drop)]
pub struct List {
    pub ops: Vec<CoreOp>,
    pub main: u32,
}

// The list of a text of which everything is known.
fn lowered(alloc: Global, known: &ProgramTables) -> Result<List, Refusal>
    requires sound { IsSound known.now }
    requires laid { CanBeLaid known.now 0 0 (functions_in known.now) }
    requires numbered { AreNumbered known.now (functions_in known.now) }
    ensures list { (program : ProgramTree) → IsLowerable known.now program
        → IfOk result (λ list. HasListOf (tables_of known.now) program list.ops.items list.main) }
    ensures sites { (program : ProgramTree) → IsLowerable known.now program
        → IfOk result (λ list. HasSites known.now list.ops.items) }
    ensures told { (program : ProgramTree) → IsLowerable known.now program
        → IfOk result
        (λ list. AreTold (depths_of known.now (functions_in known.now)) list.ops.items) }
    ensures refused { IfErr result (λ refusal. (source : Listed ℕ) → IsRefusedText source refusal) }
{
    match lower_text(alloc, known) {
        Ok(lowered) => {
            let main = entry_of_main(known, &lowered);
            Ok(List {
                ops: lowered.ops,
                main,
            })
        }
        Err(LowerFault::Memory) => Err(Refusal::Memory(AllocError)),
        Err(_) => unreachable!(),
    }
}

/// The list of a text that keeps all rules and has a layout. Fails only if there isn't enough
/// memory.
pub fn list_of(alloc: Global, text: &Built) -> Result<List, Refusal>
    requires checked { (source : Listed ℕ)
        × IsChecked source (program_of text.now.tree) text.now.facts }
    requires laid { IsLayout (program_of text.now.tree) text.now.facts text.now.layout }
    requires finds { Finds (program_of text.now.tree) text.now.facts text.now.lookup }
    requires fits { Fits (tables_by (program_of text.now.tree) text.now.facts)
        (program_of text.now.tree).items }
    requires well_formed { IsWellFormed (program_of text.now.tree) }
    requires tokens { text.now.tree.tokens ≤ 2 ^ 20 }
    ensures list { IfOk result
        (λ list. HasListOf (tables_by (program_of text.now.tree) text.now.facts)
        (program_of text.now.tree) list.ops.items list.main) }
    ensures small { IfOk result (λ list. sum_by most_words list.ops.items ≤ 256000) }
    ensures grouped { IfOk result (λ list. IsGrouped list.ops.items list.main
        (count_of_file (program_of text.now.tree) text.now.facts)) }
    ensures refused { IfErr result (λ refusal. (source : Listed ℕ) → IsRefusedText source refusal) }
{
    let known = text.tables();
    // These calls are facts for the proof, and do nothing.
    texts_have_words();
    texts_are_trim();
    texts_are_proper();
    correct_programs_fit();
    forms_are_shaped();
    lists_are_small();
    numbers_have_room();
    texts_can_be_laid();
    lowered_lists_can_have_groups();
    lists_have_blocks();
    lists_are_of_tree();
    lowered(alloc, &known)
}

// The site and the number of an operation have 32 bits.
fn has_words(op: CoreOp)
    ensures site { op.site < 2 ^ 32 }
    ensures number { op.number < 2 ^ 32 }
{
    let _ = op.is_jump();
}

// The sites and the numbers of all operations have 32 bits.
fn have_words(ops: &[CoreOp])
    ensures { All (λ op. (op.site < 2 ^ 32) × (op.number < 2 ^ 32)) ops.now }
{
    for op in ops {
        has_words(*op);
    }
}

/// The private words that calls keep at each index of a list. Code can be made of the list with
/// these, with the levels that are found for it, and with the first values of private variables of
/// file scope. Fails only if there isn't enough memory.
pub(crate) fn kept_words(alloc: Global, list: &List, firsts: &[u32]) -> Result<Vec<Set>, Refusal>
    requires { IsGrouped list.now.ops.items list.now.main (length firsts.now) }
    ensures held { IfOk result
        (λ kept. HasFrames list.now.ops.items kept.items list.now.main (length firsts.now)) }
    ensures least { IfOk result (λ kept. IsLeast list.now.ops.items (words_in kept.items)) }
    ensures generable { IfOk result (λ kept. LeadsOn list.now.ops.items
        → (saved : Listed Levels) → AreLevels list.now.ops.items saved
        → IsGenerable list.now.ops.items kept.items saved list.now.main firsts.now) }
    ensures refused { IfErr result (λ refusal. (source : Listed ℕ) → IsRefusedText source refusal) }
{
    // These calls are facts for the proof, and do nothing.
    have_words(&list.ops);
    are_words(firsts);
    grouped_lists_are_generable();
    match live_words(alloc, &list.ops) {
        Ok(kept) => Ok(kept),
        Err(error) => Err(Refusal::Memory(error)),
    }
}
