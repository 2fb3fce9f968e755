//! Expressions in statements.

ghost use Rattle.std.specs.Prelude.{IfOk};
ghost use Rattle.std.specs.Option.{option_map};
ghost use Rattle.fk_syntax.specs.Tree.{Tree};
ghost use Rattle.fk_syntax.specs.View.{tree_of};
ghost use Rattle.fk_parse_combinators.specs.Languages.{Placed};
ghost use Rattle.fk_parse_combinators.specs.Kinds.{just};
ghost use Rattle.fk_parse_combinators.specs.Readers.{optional};
ghost use Rattle.fk_parse_combinators.specs.Ahead.{Shortens, Leaves};
ghost use Rattle.fk_parse_combinators.specs.Gives.{Gives, Makes};
ghost use Rattle.fk_expr.specs.Reading.{inner};
ghost use Rattle.fk_parse_headers.specs.Reading.{read_condition, read_some, read_rank};
ghost use Rattle.fk_parse_headers.specs.Parts.{read_do_condition};
ghost use Rattle.fk_parse_headers.specs.Headers.{read_part, read_assigned};

use fk_expr::at_cursor::comma;
use fk_expr::told::expression_is_next;
use fk_lex::token::TokenKind;
use fk_parse_combinators::cursor::Cursor;
use fk_parse_combinators::fault::SyntaxFault;
use fk_syntax::expression::Expr;
use std::alloc::Global;

/// "(" comma ")", which opens no level
#[tactic(auto, using(fk_expr::proofs::Halting::halting), unfolding(crate::specs::Reading::read_condition))]
pub fn condition<'a>(
    alloc: Global,
    cursor: &mut Cursor<'_, 'a>,
    left: u32,
) -> Result<Expr<'a>, SyntaxFault>
    ensures read { Gives tree_of result cursor.new
        (read_condition (inner left) cursor.old) }
    ensures shorter { IfOk result (λ _. Shortens cursor.old cursor.new) }
{
    cursor.expect(TokenKind::OpenParenthesis)?;
    let condition = comma(alloc, cursor, left)?;
    match cursor.expect(TokenKind::CloseParenthesis) {
        Ok(_end) => Ok(condition),
        Err(fault) => {
            drop(condition);
            Err(fault)
        }
    }
}

/// "while" "(" comma ")" ";", after the body of a `do`
#[tactic(auto, using(fk_expr::proofs::Halting::halting))]
pub fn do_condition<'a>(
    alloc: Global,
    cursor: &mut Cursor<'_, 'a>,
    left: u32,
) -> Result<Expr<'a>, SyntaxFault>
    ensures read { Makes (λ (x : Placed × (Tree × Placed)). x.1.0) tree_of result cursor.new
        (read_do_condition left cursor.old) }
    ensures shorter { IfOk result (λ _. Shortens cursor.old cursor.new) }
{
    cursor.expect(TokenKind::While)?;
    let condition = condition(alloc, cursor, left)?;
    match cursor.expect(TokenKind::Semicolon) {
        Ok(_end) => Ok(condition),
        Err(fault) => {
            drop(condition);
            Err(fault)
        }
    }
}

/// [ "(" comma ")" ]
pub(crate) fn count<'a>(
    alloc: Global,
    cursor: &mut Cursor<'_, 'a>,
    left: u32,
) -> Result<Option<Expr<'a>>, SyntaxFault>
    ensures read { Gives (λ e. option_map tree_of e) result cursor.new
        (optional (just TokenKind.OpenParenthesis) (read_condition (inner left))
        cursor.old) }
    ensures few { IfOk result (λ _. Leaves cursor.old cursor.new) }
{
    if !cursor.next_is(TokenKind::OpenParenthesis) {
        return Ok(None);
    }
    Ok(Some(condition(alloc, cursor, left)?))
}

/// [ ";" "$" "=" comma ]
#[tactic(auto, using(fk_expr::proofs::Halting::halting), unfolding(crate::specs::Reading::read_rank))]
pub(crate) fn rank<'a>(
    alloc: Global,
    cursor: &mut Cursor<'_, 'a>,
    left: u32,
) -> Result<Option<Expr<'a>>, SyntaxFault>
    ensures read { Gives (λ e. option_map tree_of e) result cursor.new
        (optional (just TokenKind.Semicolon) (read_rank (inner left)) cursor.old) }
    ensures few { IfOk result (λ _. Leaves cursor.old cursor.new) }
{
    let Some(_semicolon) = cursor.accept(TokenKind::Semicolon) else {
        return Ok(None);
    };
    cursor.expect(TokenKind::Dollar)?;
    cursor.expect(TokenKind::Assign)?;
    Ok(Some(comma(alloc, cursor, left)?))
}

/// [ comma ]
pub(crate) fn some_expression<'a>(
    alloc: Global,
    cursor: &mut Cursor<'_, 'a>,
    left: u32,
) -> Result<Option<Expr<'a>>, SyntaxFault>
    ensures read { Gives (λ e. option_map tree_of e) result cursor.new
        (read_some (inner left) cursor.old) }
    ensures few { IfOk result (λ _. Leaves cursor.old cursor.new) }
{
    if !expression_is_next(cursor) {
        return Ok(None);
    }
    Ok(Some(comma(alloc, cursor, left)?))
}

/// [ comma ], and the token after it
#[tactic(auto, using(fk_expr::proofs::Halting::halting))]
pub(crate) fn part<'a>(
    alloc: Global,
    cursor: &mut Cursor<'_, 'a>,
    left: u32,
    end: TokenKind,
) -> Result<Option<Expr<'a>>, SyntaxFault>
    ensures read { Gives (λ e. option_map tree_of e) result cursor.new
        (read_part left end cursor.old) }
    ensures shorter { IfOk result (λ _. Shortens cursor.old cursor.new) }
{
    let part = some_expression(alloc, cursor, left)?;
    match cursor.expect(end) {
        Ok(_end) => Ok(part),
        Err(fault) => {
            drop(part);
            Err(fault)
        }
    }
}

/// A word, "=" and comma
#[tactic(auto, using(fk_expr::proofs::Halting::halting))]
pub(crate) fn assigned<'a>(
    alloc: Global,
    cursor: &mut Cursor<'_, 'a>,
    left: u32,
    word: TokenKind,
) -> Result<Expr<'a>, SyntaxFault>
    ensures read { Gives tree_of result cursor.new (read_assigned left word cursor.old) }
    ensures shorter { IfOk result (λ _. Shortens cursor.old cursor.new) }
{
    cursor.expect(word)?;
    cursor.expect(TokenKind::Assign)?;
    comma(alloc, cursor, left)
}
