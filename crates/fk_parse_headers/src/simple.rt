//! Statements that have no others in them, but for declarations and empty statements.

ghost use Rattle.std.specs.Prelude.{IfErr, IfOk};
ghost use Rattle.fk_syntax.specs.ProgramView.{statement_of};
ghost use Rattle.fk_parse_combinators.specs.Languages.{spot};
ghost use Rattle.fk_parse_combinators.specs.Ahead.{Shortens};
ghost use Rattle.fk_parse_combinators.specs.Faults.{IsMemory};
ghost use Rattle.fk_parse_combinators.specs.Gives.{Gives, Makes};
ghost use Rattle.fk_expr.specs.Reading.{inner};
ghost use Rattle.fk_parse_headers.specs.Reading.{read_plain, read_return, read_expression};
ghost use Rattle.fk_parse_headers.specs.Parts.{read_worded};

use crate::expressions::some_expression;
use fk_expr::at_cursor::comma;
use fk_lex::token::TokenKind;
use fk_parse_combinators::cursor::Cursor;
use fk_parse_combinators::fault::SyntaxFault;
use fk_syntax::place::Spot;
use fk_syntax::program::Stmt;
use std::alloc::Global;

/// A statement that begins with a word and has no others in it, or an expression and ";"
#[tactic(auto, using(fk_expr::proofs::Halting::halting))]
pub fn worded<'a>(
    alloc: Global,
    cursor: &mut Cursor<'_, 'a>,
    left: u32,
) -> Result<Stmt<'a>, SyntaxFault>
    ensures read { Gives statement_of result cursor.new (read_worded left cursor.old) }
    ensures shorter { IfOk result (λ _. Shortens cursor.old cursor.new) }
{
    if cursor.next_is(TokenKind::Barrier) {
        return Ok(Stmt::Barrier(plain(cursor, TokenKind::Barrier)?));
    }
    if cursor.next_is(TokenKind::Break) {
        return Ok(Stmt::Break(plain(cursor, TokenKind::Break)?));
    }
    if cursor.next_is(TokenKind::Continue) {
        return Ok(Stmt::Continue(plain(cursor, TokenKind::Continue)?));
    }
    if cursor.next_is(TokenKind::Return) {
        return returned(alloc, cursor, left);
    }
    expression(alloc, cursor, left)
}

/// "return" [ comma ] ";"
#[tactic(auto, using(fk_expr::proofs::Halting::halting), unfolding(crate::specs::Reading::read_return))]
fn returned<'a>(
    alloc: Global,
    cursor: &mut Cursor<'_, 'a>,
    left: u32,
) -> Result<Stmt<'a>, SyntaxFault>
    ensures read { Gives statement_of result cursor.new
        (read_return (inner left) cursor.old) }
    ensures shorter { IfOk result (λ _. Shortens cursor.old cursor.new) }
{
    let word = cursor.expect(TokenKind::Return)?;
    let value = some_expression(alloc, cursor, left)?;
    match cursor.expect(TokenKind::Semicolon) {
        Ok(_end) => Ok(Stmt::Return(word.spot(), value)),
        Err(fault) => {
            drop(value);
            Err(fault)
        }
    }
}

/// comma ";"
#[tactic(auto, using(fk_expr::proofs::Halting::halting), unfolding(crate::specs::Reading::read_expression))]
fn expression<'a>(
    alloc: Global,
    cursor: &mut Cursor<'_, 'a>,
    left: u32,
) -> Result<Stmt<'a>, SyntaxFault>
    ensures read { Gives statement_of result cursor.new
        (read_expression (inner left) cursor.old) }
    ensures shorter { IfOk result (λ _. Shortens cursor.old cursor.new) }
{
    let value = comma(alloc, cursor, left)?;
    match cursor.expect(TokenKind::Semicolon) {
        Ok(_end) => Ok(Stmt::Expression(value)),
        Err(fault) => {
            drop(value);
            Err(fault)
        }
    }
}

/// A word and ";"
fn plain(cursor: &mut Cursor, kind: TokenKind) -> Result<Spot, SyntaxFault>
    ensures read { Makes spot (λ at. at) result cursor.new (read_plain kind cursor.old) }
    ensures shorter { IfOk result (λ _. Shortens cursor.old cursor.new) }
    ensures no_memory { IfErr result (λ fault. ¬ IsMemory fault) }
{
    let word = cursor.expect(kind)?;
    cursor.expect(TokenKind::Semicolon)?;
    Ok(word.spot())
}
