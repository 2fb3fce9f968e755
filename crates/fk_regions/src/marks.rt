//! Marks the notes of tokens in synchronous regions.

ghost use Rattle.std.specs.Prelude.{◌≡◌, map, fold};
ghost use Rattle.fk_regions.specs.Collected.{seen};
ghost use Rattle.fk_regions.specs.Marked.{cleared, synchronous_at, after};

use crate::around::Region;
use crate::token::Token;
use fk_syntax::Note;

// Notes that no token is in a synchronous region.
fn clear(notes: &mut [Note])
    ensures { notes.new ≡ map cleared notes.old }
{
    for note in notes.iter_mut() {
        note.sync = false;
    }
}

// Notes that the token with this index is in a synchronous region.
fn mark_at(notes: &mut [Note], at: usize)
    ensures { notes.new ≡ synchronous_at notes.old at }
{
    if at < notes.len() {
        notes[at].sync = true;
    }
}

fn mark_one(notes: &mut [Note], token: &Token)
    ensures { notes.new ≡ after notes.old (seen token.now) }
{
    match token.around.region {
        Region::Synchronous => mark_at(notes, token.spot.at as usize),
        Region::Asynchronous | Region::Neither => {}
    }
}

/// Sets in each note whether its token is one of these and in a synchronous region.
pub(crate) fn mark(notes: &mut [Note], tokens: &[Token])
    ensures { notes.new ≡ fold after (map cleared notes.old) (map seen tokens.now) }
{
    clear(notes);
    for token in tokens {
        mark_one(notes, token);
    }
}
