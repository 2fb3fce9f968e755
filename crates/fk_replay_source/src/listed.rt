//! A text that can be replayed.

ghost use Rattle.std.specs.Prelude.{◌≡◌, ◌<◌, ◌^◌, ◌≤◌, IfErr, IfOk, OnOk, length, slice_get};
ghost use Rattle.fk_num.specs.Limits.{most_data_words, most_text_bytes};
ghost use Rattle.fk_syntax.specs.ProgramView.{program_of};
ghost use Rattle.fk_layout.specs.Layout.{IsLayout, tables_by};
ghost use Rattle.fk_layout.specs.Refusal.{Fits};
ghost use Rattle.fk_compile_text.specs.Refusal.{IsRefusedText};
ghost use Rattle.fk_compile_text.specs.Text.{IsChecked};
ghost use Rattle.fk_compile.specs.Faithful.{words_by};
ghost use Rattle.fk_compile.specs.Lists.{HasListOf};
ghost use Rattle.fk_replay_lists.specs.Lists.{CanBeReplayed};
ghost use Rattle.fk_replay_source.specs.Answer.{sites_by};

use fk_compile::{List, list_of};
use fk_compile_text::{Built, Refusal, built_text};
use fk_lower_names::laws::texts_are_proper;
use fk_parse_laws::laws::texts_are_trim;
use fk_replay_lists::laws::lists_can_be_replayed;
use std::alloc::Global;

/// A text that keeps all rules and has a layout, with its flat list.
#[derive(Drop)]
pub struct Listed<'a> {
    pub text: Built<'a>,
    pub list: List,
}

impl<'a> Listed<'a> {
    /// The number of the words of its shared variables of file scope.
    pub fn globals(&self) -> usize
        requires { IsLayout (program_of self.now.text.tree) self.now.text.facts
            self.now.text.layout }
        ensures { result
            ≡ length (words_by (program_of self.now.text.tree) self.now.text.facts) }
    {
        self.text.layout.words.len()
    }

    /// The kind, the line and the column of the operation of this number, if there is one.
    pub fn site(&self, number: u32) -> Option<(u32, u32, u32)>
        requires { IsLayout (program_of self.now.text.tree) self.now.text.facts
            self.now.text.layout }
        ensures { result
            ≡ slice_get (sites_by (program_of self.now.text.tree) self.now.text.facts) number }
    {
        let site = self.text.layout.sites.get(number as usize)?;
        Some((u32::from(site.kind), site.place.line, site.place.column))
    }
}

/// A text with its flat list.
///
/// # Errors
/// Those of `built_text`. A text that keeps all rules and has a layout is refused only for want of
/// memory.
pub fn listed_text<'a>(alloc: Global, source: &'a [u8]) -> Result<Listed<'a>, Refusal>
    ensures checked { IfOk result
        (λ l. IsChecked source.now (program_of l.text.tree) l.text.facts) }
    ensures laid { IfOk result
        (λ l. IsLayout (program_of l.text.tree) l.text.facts l.text.layout) }
    ensures fits { IfOk result (λ l. Fits (tables_by (program_of l.text.tree) l.text.facts)
        (program_of l.text.tree).items) }
    ensures list { IfOk result (λ l. HasListOf (tables_by (program_of l.text.tree) l.text.facts)
        (program_of l.text.tree) l.list.ops.items l.list.main) }
    ensures small { IfOk result (λ l. length l.list.ops.items < 2 ^ 32) }
    ensures few { IfOk result (λ l. length (words_by (program_of l.text.tree) l.text.facts)
        ≤ most_data_words) }
    ensures replayable { IfOk result (λ l. CanBeReplayed l.list.ops.items l.list.main) }
    ensures short { OnOk result (length source.now ≤ most_text_bytes) }
    ensures refused { IfErr result (IsRefusedText source.now) }
{
    let text = built_text(alloc, source)?;
    let list = list_of(alloc, &text)?;
    // These calls are facts for the proof, and do nothing.
    texts_are_trim();
    texts_are_proper();
    lists_can_be_replayed();
    Ok(Listed { text, list })
}
