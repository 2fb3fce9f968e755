//! Whether the next token begins a statement, and the level that it opens.

ghost use Rattle.std.specs.Prelude.{◌≡◌, ◌+◌, IfErr, IfOk};
ghost use Rattle.fk_parse_combinators.specs.Faults.{IsMemory};
ghost use Rattle.fk_parse_combinators.specs.Readers.{next_is};
ghost use Rattle.fk_expr.specs.Reading.{inner};
ghost use Rattle.fk_expr.specs.Gives.{Opens};
ghost use Rattle.fk_parse_statements.specs.Reading.{begins_statement};

use crate::kinds::begins_statement;
use fk_expr::level::inside;
use fk_parse_combinators::cursor::Cursor;
use fk_parse_combinators::fault::SyntaxFault;

/// Whether the next token begins a statement.
pub fn statement_is_next(cursor: &Cursor) -> bool
    ensures { result ≡ next_is begins_statement cursor.now }
{
    match cursor.peek() {
        Some(kind) => begins_statement(kind),
        None => false,
    }
}

/// The number of levels of nesting that are left inside the next token, which must begin a
/// statement and opens a level. `left` is the number of levels left outside.
pub fn open_statement(cursor: &Cursor, left: u32) -> Result<u32, SyntaxFault>
    ensures read { Opens begins_statement (inner left) result cursor.now }
    ensures less { IfOk result (λ inside. inside + 1 ≡ left) }
    ensures no_memory { IfErr result (λ fault. ¬ IsMemory fault) }
{
    if !statement_is_next(cursor) {
        return Err(cursor.unexpected());
    }
    inside(cursor, left)
}
