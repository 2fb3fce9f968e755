//! Headers: the parts of statements before their bodies.

ghost use Rattle.std.specs.Prelude.{◌≡◌, Option, IfOk};
ghost use Rattle.std.specs.Option.{option_map};
ghost use Rattle.fk_syntax.specs.Tree.{Tree};
ghost use Rattle.fk_syntax.specs.View.{tree_of};
ghost use Rattle.fk_syntax.specs.ProgramView.{statement_of};
ghost use Rattle.fk_parse_combinators.specs.Ahead.{Shortens};
ghost use Rattle.fk_parse_combinators.specs.Gives.{Gives, Makes};
ghost use Rattle.fk_parse_headers.specs.Headers.{headed, read_header, read_while_header};
ghost use Rattle.fk_parse_headers.specs.Headers.{read_for_header, read_last_parts};
ghost use Rattle.fk_parse_headers.specs.Headers.{read_start_header, read_parts, read_portion};
ghost use Rattle.fk_parse_headers.specs.Headers.{read_last_rank, read_fork_header};
ghost use Rattle.fk_parse_headers.specs.View.{header_of};

use crate::expressions::{assigned, condition, count, part, rank};
use fk_expr::at_cursor::comma;
use fk_lex::token::TokenKind;
use fk_parse_combinators::cursor::Cursor;
use fk_parse_combinators::fault::SyntaxFault;
use fk_syntax::expression::Expr;
use fk_syntax::place::Spot;
use fk_syntax::program::Stmt;
use std::alloc::Global;

/// The part of a statement before its body, which is its last part.
#[derive(Drop)]
pub enum Header<'a> {
    While(Spot, Expr<'a>),
    For(Spot, Option<Expr<'a>>, Option<Expr<'a>>, Option<Expr<'a>>),
    Start(Spot, Option<Expr<'a>>),
    Farm(Spot),
    Seq(Spot),
    Fork(Spot, Expr<'a>, Expr<'a>, Option<Expr<'a>>),
}

impl<'a> Header<'a> {
    /// The whole statement, with this body.
    pub fn complete(self, body: Box<Stmt<'a>>) -> Stmt<'a>
        ensures { statement_of result
            ≡ headed (header_of self.entry) (statement_of body.entry.value) }
    {
        match self {
            Header::While(at, condition) => Stmt::While(at, condition, body),
            Header::For(at, before, condition, after) => {
                Stmt::For(at, before, condition, after, body)
            }
            Header::Start(at, count) => Stmt::Start(at, count, body),
            Header::Farm(at) => Stmt::Farm(at, body),
            Header::Seq(at) => Stmt::Seq(at, body),
            Header::Fork(at, parts, part, rank) => Stmt::Fork(at, parts, part, rank, body),
        }
    }
}

/// The header of a `while`, `for`, `start`, `farm`, `seq` or `fork`.
#[tactic(auto, using(fk_expr::proofs::Halting::halting))]
pub fn any_header<'a>(
    alloc: Global,
    cursor: &mut Cursor<'_, 'a>,
    left: u32,
) -> Result<Header<'a>, SyntaxFault>
    ensures read { Gives header_of result cursor.new (read_header left cursor.old) }
    ensures shorter { IfOk result (λ _. Shortens cursor.old cursor.new) }
{
    if cursor.next_is(TokenKind::While) {
        return while_header(alloc, cursor, left);
    }
    if cursor.next_is(TokenKind::For) {
        return for_header(alloc, cursor, left);
    }
    if cursor.next_is(TokenKind::Start) {
        return start_header(alloc, cursor, left);
    }
    if let Some(farm) = cursor.accept(TokenKind::Farm) {
        return Ok(Header::Farm(farm.spot()));
    }
    if let Some(seq) = cursor.accept(TokenKind::Seq) {
        return Ok(Header::Seq(seq.spot()));
    }
    fork_header(alloc, cursor, left)
}

/// "while" "(" comma ")"
#[tactic(auto, using(fk_expr::proofs::Halting::halting))]
fn while_header<'a>(
    alloc: Global,
    cursor: &mut Cursor<'_, 'a>,
    left: u32,
) -> Result<Header<'a>, SyntaxFault>
    ensures read { Gives header_of result cursor.new (read_while_header left cursor.old) }
    ensures shorter { IfOk result (λ _. Shortens cursor.old cursor.new) }
{
    let word = cursor.expect(TokenKind::While)?;
    Ok(Header::While(word.spot(), condition(alloc, cursor, left)?))
}

/// "start" [ "(" comma ")" ]
#[tactic(auto, using(fk_expr::proofs::Halting::halting))]
fn start_header<'a>(
    alloc: Global,
    cursor: &mut Cursor<'_, 'a>,
    left: u32,
) -> Result<Header<'a>, SyntaxFault>
    ensures read { Gives header_of result cursor.new (read_start_header left cursor.old) }
    ensures shorter { IfOk result (λ _. Shortens cursor.old cursor.new) }
{
    let word = cursor.expect(TokenKind::Start)?;
    Ok(Header::Start(word.spot(), count(alloc, cursor, left)?))
}

/// "for" "(" [ comma ] ";" [ comma ] ";" [ comma ] ")"
#[tactic(auto, using(fk_expr::proofs::Halting::halting))]
fn for_header<'a>(
    alloc: Global,
    cursor: &mut Cursor<'_, 'a>,
    left: u32,
) -> Result<Header<'a>, SyntaxFault>
    ensures read { Gives header_of result cursor.new (read_for_header left cursor.old) }
    ensures shorter { IfOk result (λ _. Shortens cursor.old cursor.new) }
{
    let word = cursor.expect(TokenKind::For)?;
    cursor.expect(TokenKind::OpenParenthesis)?;
    let before = part(alloc, cursor, left, TokenKind::Semicolon)?;
    match last_parts(alloc, cursor, left) {
        Ok((condition, after)) => Ok(Header::For(word.spot(), before, condition, after)),
        Err(fault) => {
            drop(before);
            Err(fault)
        }
    }
}

/// [ comma ] ";" [ comma ] ")"
#[tactic(auto, using(fk_expr::proofs::Halting::halting))]
fn last_parts<'a>(
    alloc: Global,
    cursor: &mut Cursor<'_, 'a>,
    left: u32,
) -> Result<(Option<Expr<'a>>, Option<Expr<'a>>), SyntaxFault>
    ensures read { Gives (λ x. (option_map tree_of x.0, option_map tree_of x.1)) result cursor.new
        (read_last_parts left cursor.old) }
    ensures shorter { IfOk result (λ _. Shortens cursor.old cursor.new) }
{
    let condition = part(alloc, cursor, left, TokenKind::Semicolon)?;
    match part(alloc, cursor, left, TokenKind::CloseParenthesis) {
        Ok(after) => Ok((condition, after)),
        Err(fault) => {
            drop(condition);
            Err(fault)
        }
    }
}

/// "fork" "(" comma ";" "@" "=" comma [ ";" "$" "=" comma ] ")"
#[tactic(auto, using(fk_expr::proofs::Halting::halting))]
fn fork_header<'a>(
    alloc: Global,
    cursor: &mut Cursor<'_, 'a>,
    left: u32,
) -> Result<Header<'a>, SyntaxFault>
    ensures read { Gives header_of result cursor.new (read_fork_header left cursor.old) }
    ensures shorter { IfOk result (λ _. Shortens cursor.old cursor.new) }
{
    let (at, parts) = parts(alloc, cursor, left)?;
    match portion(alloc, cursor, left) {
        Ok((part, rank)) => Ok(Header::Fork(at, parts, part, rank)),
        Err(fault) => {
            drop(parts);
            Err(fault)
        }
    }
}

/// "@" "=" comma [ ";" "$" "=" comma ] ")"
#[tactic(auto, using(fk_expr::proofs::Halting::halting))]
fn portion<'a>(
    alloc: Global,
    cursor: &mut Cursor<'_, 'a>,
    left: u32,
) -> Result<(Expr<'a>, Option<Expr<'a>>), SyntaxFault>
    ensures read { Makes {A = Tree × Option Tree}
        (λ x. (x.0, x.1.0)) (λ x. (tree_of x.0, option_map tree_of x.1))
        result cursor.new (read_portion left cursor.old) }
    ensures shorter { IfOk result (λ _. Shortens cursor.old cursor.new) }
{
    let part = assigned(alloc, cursor, left, TokenKind::At)?;
    match last_rank(alloc, cursor, left) {
        Ok(rank) => Ok((part, rank)),
        Err(fault) => {
            drop(part);
            Err(fault)
        }
    }
}

/// [ ";" "$" "=" comma ] ")"
#[tactic(auto, using(fk_expr::proofs::Halting::halting))]
fn last_rank<'a>(
    alloc: Global,
    cursor: &mut Cursor<'_, 'a>,
    left: u32,
) -> Result<Option<Expr<'a>>, SyntaxFault>
    ensures read { Makes (λ x. x.0) (option_map tree_of) result cursor.new
        (read_last_rank left cursor.old) }
    ensures shorter { IfOk result (λ _. Shortens cursor.old cursor.new) }
{
    let rank = rank(alloc, cursor, left)?;
    match cursor.expect(TokenKind::CloseParenthesis) {
        Ok(_end) => Ok(rank),
        Err(fault) => {
            drop(rank);
            Err(fault)
        }
    }
}

/// "fork" "(" comma ";"
#[tactic(auto, using(fk_expr::proofs::Halting::halting))]
fn parts<'a>(
    alloc: Global,
    cursor: &mut Cursor<'_, 'a>,
    left: u32,
) -> Result<(Spot, Expr<'a>), SyntaxFault>
    ensures read { Gives (λ x. (x.0, tree_of x.1)) result cursor.new
        (read_parts left cursor.old) }
    ensures shorter { IfOk result (λ _. Shortens cursor.old cursor.new) }
{
    let word = cursor.expect(TokenKind::Fork)?;
    cursor.expect(TokenKind::OpenParenthesis)?;
    let parts = comma(alloc, cursor, left)?;
    match cursor.expect(TokenKind::Semicolon) {
        Ok(_end) => Ok((word.spot(), parts)),
        Err(fault) => {
            drop(parts);
            Err(fault)
        }
    }
}
