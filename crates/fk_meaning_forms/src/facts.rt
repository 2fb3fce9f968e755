//! What the facts of a program say of its tokens.

ghost use Rattle.std.specs.Prelude.{◌≡◌};
ghost use Rattle.fk_meaning_forms.specs.Tables.{nth, no_kind, no_note};

use fk_syntax::{Kind, Note};

const NO_NOTE: Note = Note {
    kind: 0,
    binding: 0,
    sync: false,
    shared: false,
    splits: false,
};

const NO_KIND: Kind = Kind {
    words: 0,
    unsigned: false,
    array: false,
    step: 0,
};

/// The note of a token. A token without one has one that says nothing.
pub fn note_of(notes: &[Note], at: u32) -> Note
    ensures { result ≡ nth no_note notes.now at }
{
    match notes.get(at as usize) {
        Some(note) => *note,
        None => NO_NOTE,
    }
}

/// The type that a token tells. One that tells none has a type without words.
pub fn kind_of(notes: &[Note], kinds: &[Kind], at: u32) -> Kind
    ensures { result ≡ nth no_kind kinds.now (nth no_note notes.now at).kind }
{
    match kinds.get(note_of(notes, at).kind as usize) {
        Some(kind) => *kind,
        None => NO_KIND,
    }
}
