//! Tokens that open a level of nesting.

ghost use Rattle.std.specs.Prelude.{◌≡◌, ◌+◌, ◌<◌, length, IfErr, IfOk};
ghost use Rattle.fk_parse_combinators.specs.Faults.{IsMemory};
ghost use Rattle.fk_parse_combinators.specs.Kinds.{just};
ghost use Rattle.fk_parse_combinators.specs.Readers.{tells};
ghost use Rattle.fk_expr.specs.Kinds.{prefix_told};
ghost use Rattle.fk_expr.specs.Reading.{inner, begins_expression};
ghost use Rattle.fk_expr.specs.Gives.{Nests, Opens};

use crate::told::{expression_is_next, prefix_is_next};
use fk_lex::token::TokenKind;
use fk_parse_combinators::cursor::Cursor;
use fk_parse_combinators::fault::SyntaxFault;

/// The number of levels of nesting that are left inside the next token, which must have this kind
/// and opens a level. `left` is the number of levels left outside.
pub fn open(cursor: &Cursor, kind: TokenKind, left: u32) -> Result<u32, SyntaxFault>
    ensures read { Opens (just kind) (inner left) result cursor.now }
    ensures less { IfOk result (λ inside. inside + 1 ≡ left) }
    ensures no_memory { IfErr result (λ fault. ¬ IsMemory fault) }
{
    if !cursor.next_is(kind) {
        return Err(cursor.unexpected());
    }
    inside(cursor, left)
}

/// The number of levels left inside the next token, which must begin an expression.
pub(crate) fn open_expression(cursor: &Cursor, left: u32) -> Result<u32, SyntaxFault>
    ensures read { Opens begins_expression (inner left) result cursor.now }
    ensures less { IfOk result (λ inside. inside + 1 ≡ left) }
    ensures no_memory { IfErr result (λ fault. ¬ IsMemory fault) }
{
    if !expression_is_next(cursor) {
        return Err(cursor.unexpected());
    }
    inside(cursor, left)
}

/// The number of levels left inside the next token, which must be a sign before an operand.
pub(crate) fn open_prefix(cursor: &Cursor, left: u32) -> Result<u32, SyntaxFault>
    ensures read { Opens (tells prefix_told) (inner left) result cursor.now }
    ensures less { IfOk result (λ inside. inside + 1 ≡ left) }
    ensures no_memory { IfErr result (λ fault. ¬ IsMemory fault) }
{
    if !prefix_is_next(cursor) {
        return Err(cursor.unexpected());
    }
    inside(cursor, left)
}

/// The number of levels left inside the next token, of whatever kind. `left` is the number of
/// levels left outside.
pub fn inside(cursor: &Cursor, left: u32) -> Result<u32, SyntaxFault>
    requires { 0 < length cursor.now }
    ensures read { Nests (inner left) result cursor.now }
    ensures less { IfOk result (λ inside. inside + 1 ≡ left) }
    ensures no_memory { IfErr result (λ fault. ¬ IsMemory fault) }
{
    if left == 0 {
        return Err(cursor.nesting());
    }
    Ok(left - 1)
}
