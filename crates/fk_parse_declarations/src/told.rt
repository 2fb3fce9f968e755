//! What comes next: a word of sharing, or a token that begins a parameter.

ghost use Rattle.std.specs.Prelude.{◌≡◌, ◌<◌, ◌^◌, IfErr, IfOk, length};
ghost use Rattle.fk_parse_combinators.specs.Readers.{next_is, tells, next_tells, expect_told};
ghost use Rattle.fk_parse_combinators.specs.Ahead.{seen, Shortens};
ghost use Rattle.fk_parse_combinators.specs.Faults.{IsMemory};
ghost use Rattle.fk_parse_combinators.specs.Gives.{Gives};
ghost use Rattle.fk_parse_declarations.specs.Kinds.{sharing_told};
ghost use Rattle.fk_parse_declarations.specs.Reading.{begins_parameter};

use crate::kinds::{begins_parameter, sharing};
use fk_parse_combinators::cursor::{Cursor, Numbered};
use fk_parse_combinators::fault::SyntaxFault;

/// Reads the next token, which must be a sharing word. Returns whether it is `sh`.
pub fn expect_sharing<'a>(cursor: &mut Cursor<'_, 'a>) -> Result<(Numbered<'a>, bool), SyntaxFault>
    ensures read { Gives (λ x. (seen x.0, x.1)) result cursor.new
        (expect_told sharing_told cursor.old) }
    ensures shorter { IfOk result (λ _. Shortens cursor.old cursor.new) }
    ensures no_memory { IfErr result (λ fault. ¬ IsMemory fault) }
{
    let Some(shared) = next_sharing(cursor) else {
        return Err(cursor.unexpected());
    };
    Ok((cursor.next()?, shared))
}

/// Whether the next token is a sharing word.
pub fn sharing_is_next(cursor: &Cursor) -> bool
    ensures next { result ≡ next_is (tells sharing_told) cursor.now }
    ensures few { length cursor.now < 2 ^ 32 }
{
    next_sharing(cursor).is_some()
}

/// Whether the next token begins a parameter or a declaration of variables.
pub fn parameter_is_next(cursor: &Cursor) -> bool
    ensures next { result ≡ next_is begins_parameter cursor.now }
    ensures few { length cursor.now < 2 ^ 32 }
{
    match cursor.peek() {
        Some(kind) => begins_parameter(kind),
        None => false,
    }
}

/// The next token, where it is a word of sharing.
fn next_sharing(cursor: &Cursor) -> Option<bool>
    ensures told { result ≡ next_tells sharing_told cursor.now }
    ensures few { length cursor.now < 2 ^ 32 }
{
    sharing(cursor.peek()?)
}
