//! Statements that have no others in them.

ghost use Rattle.std.specs.Prelude.{IfOk};
ghost use Rattle.fk_syntax.specs.ProgramView.{statement_of};
ghost use Rattle.fk_parse_combinators.specs.Ahead.{Shortens};
ghost use Rattle.fk_parse_combinators.specs.Gives.{Gives};
ghost use Rattle.fk_parse_statements.specs.Parts.{read_simple};

use fk_lex::token::TokenKind;
use fk_parse_combinators::cursor::Cursor;
use fk_parse_combinators::fault::SyntaxFault;
use fk_parse_declarations::declaration::variables;
use fk_parse_declarations::told::parameter_is_next;
use fk_parse_headers::simple::worded;
use fk_syntax::program::Stmt;
use std::alloc::Global;

/// A statement that has no others in it.
#[tactic(auto, using(fk_expr::proofs::Halting::halting))]
pub(crate) fn simple<'a>(
    alloc: Global,
    cursor: &mut Cursor<'_, 'a>,
    left: u32,
) -> Result<Stmt<'a>, SyntaxFault>
    ensures read { Gives statement_of result cursor.new (read_simple left cursor.old) }
    ensures shorter { IfOk result (λ _. Shortens cursor.old cursor.new) }
{
    if let Some(_semicolon) = cursor.accept(TokenKind::Semicolon) {
        return Ok(Stmt::Empty);
    }
    if parameter_is_next(cursor) {
        return Ok(Stmt::Declare(variables(alloc, cursor, left)?));
    }
    worded(alloc, cursor, left)
}
