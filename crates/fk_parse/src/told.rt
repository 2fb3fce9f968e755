//! The kinds of the next tokens: a mode word, or one that begins an item.

ghost use Rattle.std.specs.Prelude.{◌≡◌, ◌<◌, ◌^◌, IfErr, IfOk, length};
ghost use Rattle.fk_parse_combinators.specs.Readers.{next_is, tells, next_tells, expect_told};
ghost use Rattle.fk_parse_combinators.specs.Ahead.{seen, Shortens};
ghost use Rattle.fk_parse_combinators.specs.Faults.{IsMemory};
ghost use Rattle.fk_parse_combinators.specs.Gives.{Gives};
ghost use Rattle.fk_parse.specs.Kinds.{mode_told};
ghost use Rattle.fk_parse.specs.Reading.{begins_item};

use crate::kinds::{begins_item, mode};
use fk_parse_combinators::cursor::{Cursor, Numbered};
use fk_parse_combinators::fault::SyntaxFault;
use fk_syntax::program::Mode;

/// Reads the next token, which must be a mode word.
pub fn expect_mode<'a>(cursor: &mut Cursor<'_, 'a>) -> Result<(Numbered<'a>, Mode), SyntaxFault>
    ensures read { Gives (λ x. (seen x.0, x.1)) result cursor.new
        (expect_told mode_told cursor.old) }
    ensures shorter { IfOk result (λ _. Shortens cursor.old cursor.new) }
    ensures no_memory { IfErr result (λ fault. ¬ IsMemory fault) }
{
    let Some(mode) = next_mode(cursor) else {
        return Err(cursor.unexpected());
    };
    Ok((cursor.next()?, mode))
}

/// Whether the next token is a mode word.
pub fn mode_is_next(cursor: &Cursor) -> bool
    ensures { result ≡ next_is (tells mode_told) cursor.now }
{
    next_mode(cursor).is_some()
}

/// Whether the next token begins an item.
pub fn item_is_next(cursor: &Cursor) -> bool
    ensures next { result ≡ next_is begins_item cursor.now }
    ensures few { length cursor.now < 2 ^ 32 }
{
    match cursor.peek() {
        Some(kind) => begins_item(kind),
        None => false,
    }
}

/// The mode of the next token, if that is a mode word.
fn next_mode(cursor: &Cursor) -> Option<Mode>
    ensures { result ≡ next_tells mode_told cursor.now }
{
    mode(cursor.peek()?)
}
