//! The whole compiler.

ghost use Rattle.std.specs.Prelude.{IfErr, IfOk, map};
ghost use Rattle.fk_layout_globals.specs.View.{row_of};
ghost use Rattle.fk_compile_text.specs.Refusal.{IsRefusedText};
ghost use Rattle.fk_compile_text.specs.Text.{HasRows};
ghost use Rattle.fk_compile.specs.Faithful.{IsFaithful};
ghost use Rattle.fk_compile.specs.Events.{TellsEvents};

use crate::image::{are_words, site_table};
use crate::laws::steps_find_values;
use crate::list::{kept_words, list_of};
use fk_compile_text::{GlobalRow, Refusal, built_text};
use fk_core_levels::levels;
use fk_gen_list::generate;
use fk_image::Image;
use fk_sim_rounds::laws::programs_are_followed;
use fk_sim_runs::laws::machines_follow_trees;
use std::alloc::Global;

/// A text that is compiled.
#[derive(Drop)]
pub struct Compiled<'a> {
    pub image: Image,
    /// The shared variables of file scope, in the order of the text.
    pub rows: Vec<GlobalRow<'a>>,
}

/// The image of a text, and its shared variables of file scope. Each run of the image is a run of
/// the text's program by a lawful schedule: it prints the same bytes, and shared data and its
/// status are the same, a fault at a site of the text included. It never traps. This holds of runs
/// of up to 2^32 - 1 cycles, with 1 to 1,024 harts and an input of at most 65,536 words, which with
/// the globals are at most 524,288. Each entry of the commit table has the event of the operation
/// whose code its address is in.
///
/// # Errors
/// Those of `built_text`. A text that keeps all rules and has a layout is refused only for want of
/// memory.
pub fn compile<'a>(alloc: Global, source: &'a [u8]) -> Result<Compiled<'a>, Refusal>
    ensures faithful { IfOk result (λ compiled. IsFaithful source.now compiled.image) }
    ensures events { IfOk result (λ compiled. TellsEvents source.now compiled.image) }
    ensures rows { IfOk result (λ compiled. HasRows source.now (map row_of compiled.rows.items)) }
    ensures refused { IfErr result (IsRefusedText source.now) }
{
    let text = built_text(alloc, source)?;
    let list = list_of(alloc, &text)?;
    let layout = text.layout;
    let globals = layout.words.len() as u32;
    let kept = kept_words(alloc, &list, &layout.firsts)?;
    let saved = levels(alloc, &list.ops).map_err(Refusal::Memory)?;
    let code = generate(
        alloc,
        &list.ops,
        &kept,
        &saved,
        list.main,
        &layout.firsts,
        globals,
    )
    .map_err(Refusal::Memory)?;
    let sites = site_table(alloc, &layout.sites).map_err(Refusal::Memory)?;
    // These calls are facts for the proof, and do nothing.
    are_words(&layout.firsts);
    are_words(&layout.words);
    steps_find_values();
    machines_follow_trees();
    programs_are_followed();
    let image = Image {
        code: code.words,
        globals: layout.words,
        sites,
        commits: code.commits,
    };
    Ok(Compiled {
        image,
        rows: layout.rows,
    })
}
