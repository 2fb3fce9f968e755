//! What the layout looks up in the facts of a program.

ghost use Rattle.std.specs.Prelude.{◌≡◌};
ghost use Rattle.fk_layout_slots.specs.Told.{note_at, words_at, splits_at};
ghost use Rattle.fk_layout_slots.specs.KnownView.{told_by};

use fk_meaning_forms::{kind_of, note_of};
use fk_syntax::{Kind, Note};

/// The facts of a program that the layout needs.
#[derive(Clone, Copy)]
pub(crate) struct TypeNotes<'p> {
    /// A note for each token.
    pub(crate) notes: &'p [Note],
    /// The types.
    pub(crate) kinds: &'p [Kind],
}

impl<'p> TypeNotes<'p> {
    // The note of a token.
    fn note(&self, at: u32) -> Note
        ensures { result ≡ note_at (told_by self.now) at }
    {
        note_of(self.notes, at)
    }

    /// The number of words of the variable that the name at a token declares.
    pub(crate) fn words(&self, at: u32) -> u32
        ensures { result ≡ words_at (told_by self.now) at }
    {
        kind_of(self.notes, self.kinds, at).words
    }

    /// Whether a group splits at the statement of a token.
    pub(crate) fn splits(&self, at: u32) -> bool
        ensures { result ≡ splits_at (told_by self.now) at }
    {
        self.note(at).splits
    }
}
