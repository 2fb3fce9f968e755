//! Statements.
//!
//! The next token tells which statement comes. No token is therefore read twice, and the calls nest
//! as the levels do. The code shows this; no clause states it.

ghost use Rattle.std.specs.Prelude.{map, IfOk};
ghost use Rattle.std.specs.Option.{option_map};
ghost use Rattle.std.specs.declared.boxed.Box.{Box};
ghost use Rattle.std.specs.declared.alloc.Global.{Global};
ghost use Rattle.fk_syntax.specs.declared.program.Stmt.{Stmt};
ghost use Rattle.fk_syntax.specs.Program.{statements_of};
ghost use Rattle.fk_syntax.specs.ProgramView.{statement_of};
ghost use Rattle.fk_parse_combinators.specs.Ahead.{Shortens, Leaves};
ghost use Rattle.fk_parse_combinators.specs.Gives.{Gives};
ghost use Rattle.fk_expr.specs.Reading.{inner};
ghost use Rattle.fk_parse_statements.specs.Reading.{statements_with, read_block, read_if, read_do};
ghost use Rattle.fk_parse_statements.specs.Parts.{read_nested, read_otherwise, read_branches};
ghost use Rattle.fk_parse_statements.specs.Parts.{read_headed, read_any};

use crate::boxes::{completed, in_box};
use crate::simple::simple;
use crate::told::{open_statement, statement_is_next};
use fk_lex::token::TokenKind;
use fk_parse_combinators::cursor::Cursor;
use fk_parse_combinators::fault::SyntaxFault;
use fk_parse_declarations::lists::put;
use fk_parse_headers::expressions::{condition, do_condition};
use fk_parse_headers::header::any_header;
use fk_parse_headers::told::header_is_next;
use fk_syntax::program::Stmt;
use std::alloc::Global;

/// block = "{" { stmt } "}"
#[cycle(statement)]
#[tactic(auto, using(fk_expr::proofs::Halting::halting), unfolding(crate::specs::Reading::read_block))]
pub fn block<'a>(
    alloc: Global,
    cursor: &mut Cursor<'_, 'a>,
    left: u32,
) -> Result<Vec<Stmt<'a>>, SyntaxFault>
    ensures read { Gives (λ b. statements_of (map statement_of b.items)) result cursor.new
        (read_block (statements_with left) cursor.old) }
    ensures shorter { IfOk result (λ _. Shortens cursor.old cursor.new) }
{
    cursor.expect(TokenKind::OpenBrace)?;
    let mut statements = Vec::new(alloc);
    while statement_is_next(cursor) {
        put(&mut statements, nested(alloc, cursor, left)?)?;
    }
    cursor.expect(TokenKind::CloseBrace)?;
    Ok(statements)
}

/// An inner statement, which opens a level at its first token.
#[cycle(statement)]
fn nested<'a>(
    alloc: Global,
    cursor: &mut Cursor<'_, 'a>,
    left: u32,
) -> Result<Stmt<'a>, SyntaxFault>
    ensures read { Gives statement_of result cursor.new (read_nested left cursor.old) }
    ensures shorter { IfOk result (λ _. Shortens cursor.old cursor.new) }
{
    let inside = open_statement(cursor, left)?;
    statement(alloc, cursor, inside)
}

/// Reads an inner statement in a box, in which the outer statement keeps it.
#[cycle(statement)]
fn boxed<'a>(
    alloc: Global,
    cursor: &mut Cursor<'_, 'a>,
    left: u32,
) -> Result<Box<Stmt<'a>>, SyntaxFault>
    ensures read { Gives (λ s. statement_of s.value) result cursor.new
        (read_nested left cursor.old) }
    ensures shorter { IfOk result (λ _. Shortens cursor.old cursor.new) }
{
    in_box(alloc, nested(alloc, cursor, left))
}

/// A statement with `left` levels left inside.
#[cycle(statement)]
#[tactic(auto, using(fk_expr::proofs::Halting::halting))]
fn statement<'a>(
    alloc: Global,
    cursor: &mut Cursor<'_, 'a>,
    left: u32,
) -> Result<Stmt<'a>, SyntaxFault>
    ensures read { Gives statement_of result cursor.new (read_any left cursor.old) }
    ensures shorter { IfOk result (λ _. Shortens cursor.old cursor.new) }
{
    if cursor.next_is(TokenKind::OpenBrace) {
        return Ok(Stmt::block(block(alloc, cursor, left)?));
    }
    if cursor.next_is(TokenKind::If) {
        return if_else(alloc, cursor, left);
    }
    if cursor.next_is(TokenKind::Do) {
        return do_while(alloc, cursor, left);
    }
    if header_is_next(cursor) {
        return headed(alloc, cursor, left);
    }
    simple(alloc, cursor, left)
}

/// "if" "(" comma ")" stmt [ "else" stmt ], where an `else` belongs to the nearest `if`
#[cycle(statement)]
#[tactic(auto, using(fk_expr::proofs::Halting::halting), unfolding(crate::specs::Reading::read_if))]
fn if_else<'a>(
    alloc: Global,
    cursor: &mut Cursor<'_, 'a>,
    left: u32,
) -> Result<Stmt<'a>, SyntaxFault>
    ensures read { Gives statement_of result cursor.new
        (read_if (inner left) (statements_with left) cursor.old) }
    ensures shorter { IfOk result (λ _. Shortens cursor.old cursor.new) }
{
    let word = cursor.expect(TokenKind::If)?;
    let condition = condition(alloc, cursor, left)?;
    match branches(alloc, cursor, left) {
        Ok((then, otherwise)) => Ok(Stmt::If(word.spot(), condition, then, otherwise)),
        Err(fault) => {
            drop(condition);
            Err(fault)
        }
    }
}

/// stmt [ "else" stmt ]
#[cycle(statement)]
#[tactic(auto, using(fk_expr::proofs::Halting::halting))]
fn branches<'a>(
    alloc: Global,
    cursor: &mut Cursor<'_, 'a>,
    left: u32,
) -> Result<(Box<Stmt<'a>>, Option<Box<Stmt<'a>>>), SyntaxFault>
    ensures read { Gives (λ x. (
      statement_of x.0.value,
      option_map (λ (s : Box Stmt Global). statement_of s.value) x.1,
    )) result cursor.new
        (read_branches left cursor.old) }
    ensures shorter { IfOk result (λ _. Shortens cursor.old cursor.new) }
{
    let then = boxed(alloc, cursor, left)?;
    match otherwise(alloc, cursor, left) {
        Ok(otherwise) => Ok((then, otherwise)),
        Err(fault) => {
            drop(then);
            Err(fault)
        }
    }
}

/// [ "else" stmt ]
#[cycle(statement)]
#[tactic(auto, using(fk_expr::proofs::Halting::halting))]
fn otherwise<'a>(
    alloc: Global,
    cursor: &mut Cursor<'_, 'a>,
    left: u32,
) -> Result<Option<Box<Stmt<'a>>>, SyntaxFault>
    ensures read { Gives (option_map (λ (s : Box Stmt Global). statement_of s.value)) result
        cursor.new (read_otherwise left cursor.old) }
    ensures few { IfOk result (λ _. Leaves cursor.old cursor.new) }
{
    let Some(_else) = cursor.accept(TokenKind::Else) else {
        return Ok(None);
    };
    Ok(Some(boxed(alloc, cursor, left)?))
}

/// "do" stmt "while" "(" comma ")" ";"
#[cycle(statement)]
#[tactic(auto, using(fk_expr::proofs::Halting::halting), unfolding(crate::specs::Reading::read_do))]
fn do_while<'a>(
    alloc: Global,
    cursor: &mut Cursor<'_, 'a>,
    left: u32,
) -> Result<Stmt<'a>, SyntaxFault>
    ensures read { Gives statement_of result cursor.new
        (read_do (inner left) (statements_with left) cursor.old) }
    ensures shorter { IfOk result (λ _. Shortens cursor.old cursor.new) }
{
    let word = cursor.expect(TokenKind::Do)?;
    let body = boxed(alloc, cursor, left)?;
    match do_condition(alloc, cursor, left) {
        Ok(condition) => Ok(Stmt::DoWhile(word.spot(), body, condition)),
        Err(fault) => {
            drop(body);
            Err(fault)
        }
    }
}

/// A header, and the statement after it.
#[cycle(statement)]
#[tactic(auto, using(fk_expr::proofs::Halting::halting))]
fn headed<'a>(
    alloc: Global,
    cursor: &mut Cursor<'_, 'a>,
    left: u32,
) -> Result<Stmt<'a>, SyntaxFault>
    ensures read { Gives statement_of result cursor.new (read_headed left cursor.old) }
    ensures shorter { IfOk result (λ _. Shortens cursor.old cursor.new) }
{
    let header = any_header(alloc, cursor, left)?;
    let body = boxed(alloc, cursor, left);
    completed(header, body)
}
