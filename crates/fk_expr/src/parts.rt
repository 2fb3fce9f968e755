//! Parts of expressions without inner expressions.

ghost use Rattle.std.specs.Prelude.{IfErr, IfOk};
ghost use Rattle.fk_syntax.specs.Tree.{TypeTree};
ghost use Rattle.fk_syntax.specs.View.{tree_of, suffix_of, type_of};
ghost use Rattle.fk_expr.specs.Reading.{inner, read_sizeof, read_enclosed_type, read_puts};
ghost use Rattle.fk_expr.specs.Reading.{read_enclosed_text, read_mark, read_dot, read_arrow};
ghost use Rattle.fk_parse_combinators.specs.Languages.{Placed};
ghost use Rattle.fk_parse_combinators.specs.Ahead.{seen, Shortens};
ghost use Rattle.fk_parse_combinators.specs.Faults.{IsMemory};
ghost use Rattle.fk_parse_combinators.specs.Gives.{Gives, Makes};

use crate::level::open;
use crate::types::type_name;
use fk_lex::token::TokenKind;
use fk_parse_combinators::cursor::{Cursor, Numbered};
use fk_parse_combinators::fault::SyntaxFault;
use fk_syntax::expression::{Expr, Suffix, TypeName};

/// "sizeof" "(" type stars ")"
#[tactic(auto, using(crate::proofs::Halting::halting), unfolding(crate::specs::Reading::read_sizeof))]
pub(crate) fn size_of<'a>(cursor: &mut Cursor<'_, 'a>, left: u32) -> Result<Expr<'a>, SyntaxFault>
    ensures read { Gives tree_of result cursor.new
        (read_sizeof (inner left) cursor.old) }
    ensures shorter { IfOk result (λ _. Shortens cursor.old cursor.new) }
    ensures no_memory { IfErr result (λ fault. ¬ IsMemory fault) }
{
    let word = cursor.expect(TokenKind::Sizeof)?;
    let kind = enclosed_type(cursor, left)?;
    Ok(Expr::Sizeof(word.spot(), kind))
}

/// "(" type stars ")"
#[tactic(auto, using(crate::proofs::Halting::halting))]
fn enclosed_type<'a>(cursor: &mut Cursor<'_, 'a>, left: u32) -> Result<TypeName<'a>, SyntaxFault>
    ensures read { Makes (λ (x : Placed × (TypeTree × Placed)). x.1.0) type_of result cursor.new
        (read_enclosed_type (inner left) cursor.old) }
    ensures shorter { IfOk result (λ _. Shortens cursor.old cursor.new) }
    ensures no_memory { IfErr result (λ fault. ¬ IsMemory fault) }
{
    open(cursor, TokenKind::OpenParenthesis, left)?;
    cursor.expect(TokenKind::OpenParenthesis)?;
    let kind = type_name(cursor)?;
    cursor.expect(TokenKind::CloseParenthesis)?;
    Ok(kind)
}

/// "puts" "(" Text ")"
#[tactic(auto, using(crate::proofs::Halting::halting))]
pub(crate) fn puts<'a>(cursor: &mut Cursor<'_, 'a>, left: u32) -> Result<Expr<'a>, SyntaxFault>
    ensures read { Gives tree_of result cursor.new (read_puts (inner left) cursor.old) }
    ensures shorter { IfOk result (λ _. Shortens cursor.old cursor.new) }
    ensures no_memory { IfErr result (λ fault. ¬ IsMemory fault) }
{
    let word = cursor.expect(TokenKind::Puts)?;
    let text = enclosed_text(cursor, left)?;
    Ok(Expr::Puts(word.spot(), text.token.bytes))
}

/// "(" Text ")"
#[tactic(auto, using(crate::proofs::Halting::halting))]
fn enclosed_text<'a>(cursor: &mut Cursor<'_, 'a>, left: u32) -> Result<Numbered<'a>, SyntaxFault>
    ensures read { Makes (λ (x : Placed × (Placed × Placed)). x.1.0) seen result cursor.new
        (read_enclosed_text (inner left) cursor.old) }
    ensures shorter { IfOk result (λ _. Shortens cursor.old cursor.new) }
    ensures no_memory { IfErr result (λ fault. ¬ IsMemory fault) }
{
    open(cursor, TokenKind::OpenParenthesis, left)?;
    cursor.expect(TokenKind::OpenParenthesis)?;
    let text = cursor.expect(TokenKind::Text)?;
    cursor.expect(TokenKind::CloseParenthesis)?;
    Ok(text)
}

/// "." Name | "->" Name | "++" | "--"
#[tactic(auto, using(crate::proofs::Halting::halting))]
pub(crate) fn mark<'a>(cursor: &mut Cursor<'_, 'a>) -> Result<Suffix<'a>, SyntaxFault>
    ensures read { Gives suffix_of result cursor.new (read_mark cursor.old) }
    ensures shorter { IfOk result (λ _. Shortens cursor.old cursor.new) }
    ensures no_memory { IfErr result (λ fault. ¬ IsMemory fault) }
{
    if cursor.next_is(TokenKind::Dot) {
        return dot(cursor);
    }
    if cursor.next_is(TokenKind::Arrow) {
        return arrow(cursor);
    }
    if let Some(up) = cursor.accept(TokenKind::Increment) {
        return Ok(Suffix::Up(up.spot()));
    }
    Ok(Suffix::Down(cursor.expect(TokenKind::Decrement)?.spot()))
}

/// "." Name
#[tactic(auto, using(crate::proofs::Halting::halting))]
fn dot<'a>(cursor: &mut Cursor<'_, 'a>) -> Result<Suffix<'a>, SyntaxFault>
    ensures read { Gives suffix_of result cursor.new (read_dot cursor.old) }
    ensures shorter { IfOk result (λ _. Shortens cursor.old cursor.new) }
    ensures no_memory { IfErr result (λ fault. ¬ IsMemory fault) }
{
    let dot = cursor.expect(TokenKind::Dot)?;
    let member = cursor.expect(TokenKind::Word)?;
    Ok(Suffix::Dot(dot.spot(), member.name()))
}

/// "->" Name
#[tactic(auto, using(crate::proofs::Halting::halting))]
fn arrow<'a>(cursor: &mut Cursor<'_, 'a>) -> Result<Suffix<'a>, SyntaxFault>
    ensures read { Gives suffix_of result cursor.new (read_arrow cursor.old) }
    ensures shorter { IfOk result (λ _. Shortens cursor.old cursor.new) }
    ensures no_memory { IfErr result (λ fault. ¬ IsMemory fault) }
{
    let arrow = cursor.expect(TokenKind::Arrow)?;
    let member = cursor.expect(TokenKind::Word)?;
    Ok(Suffix::Arrow(arrow.spot(), member.name()))
}
