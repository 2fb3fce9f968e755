//! What the notes of tokens say.

ghost use Rattle.std.specs.Prelude.{◌≡◌};
ghost use Rattle.fk_meaning_forms.specs.Tables as t;
ghost use Rattle.fk_layout_globals.specs.View.{tables_of};

use fk_meaning_forms::{kind_of, note_of};
use fk_syntax::{Kind, Note};

/// The facts of a program that constants and variables need.
#[derive(Clone, Copy)]
pub struct Types<'n, 'k> {
    /// A note for each token.
    pub notes: &'n [Note],
    /// The types.
    pub kinds: &'k [Kind],
}

impl<'n, 'k> Types<'n, 'k> {
    /// The note of a token.
    pub(crate) fn note(&self, at: u32) -> Note
        ensures { result ≡ t.note (tables_of self.now) at }
    {
        note_of(self.notes, at)
    }

    /// The type in the note of a token.
    pub(crate) fn kind_at(&self, at: u32) -> Kind
        ensures { result ≡ t.kind_at (tables_of self.now) at }
    {
        kind_of(self.notes, self.kinds, at)
    }

    /// Whether the numbers of a token's type are unsigned. An array counts as the pointer to its
    /// first element.
    pub(crate) fn is_unsigned(&self, at: u32) -> bool
        ensures { result ≡ t.is_unsigned (tables_of self.now) at }
    {
        let kind = self.kind_at(at);
        kind.unsigned || kind.array
    }
}
