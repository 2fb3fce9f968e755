//! Marks the notes of shared expressions, and of tokens at which a group splits.

ghost use Rattle.std.specs.Prelude.{◌≡◌, map, fold};
ghost use Rattle.fk_sharing.specs.Collected.{seen};
ghost use Rattle.fk_sharing.specs.Marked.{cleared, joined, joined_at, after};

use crate::judge::is_splitting;
use crate::token::Token;
use fk_syntax::Note;

// Notes that no expression is shared, and that no group splits.
fn clear(notes: &mut [Note])
    ensures { notes.new ≡ map cleared notes.old }
{
    for note in notes.iter_mut() {
        note.shared = false;
        note.splits = false;
    }
}

fn joined(note: Note, shared: bool, splits: bool) -> Note
    ensures { result ≡ joined note shared splits }
{
    Note {
        shared: note.shared || shared,
        splits: note.splits || splits,
        ..note
    }
}

// Adds the marks of a token to the note with this index.
fn join_at(notes: &mut [Note], at: usize, shared: bool, splits: bool)
    ensures { notes.new ≡ joined_at notes.old at shared splits }
{
    if at < notes.len() {
        notes[at] = joined(notes[at], shared, splits);
    }
}

fn mark_one(notes: &mut [Note], token: &Token)
    ensures { notes.new ≡ after notes.old (seen token.now) }
{
    let splits = is_splitting(token.around.region, token.word);
    join_at(notes, token.spot.at as usize, token.shared, splits);
}

/// Sets in each note whether its token is the main token of a shared expression, and whether a
/// group splits there, by these tokens.
pub(crate) fn mark(notes: &mut [Note], tokens: &[Token])
    ensures { notes.new ≡ fold after (map cleared notes.old) (map seen tokens.now) }
{
    clear(notes);
    for token in tokens {
        mark_one(notes, token);
    }
}
