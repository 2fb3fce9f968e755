//! The productions of expressions.
//!
//! The next token, or the next two, tell which alternative comes. No token is therefore read twice,
//! and the calls nest as the levels and the ten kinds of operators do. The code shows this; no
//! clause states it.

ghost use Rattle.std.specs.Prelude.{◌≤◌, ◌<◌, ◌-◌, ◌^◌, length, map, IfOk};
ghost use Rattle.fk_syntax.specs.View.{tree_of, link_of, suffix_of};
ghost use Rattle.fk_expr.specs.Reading.{
  inner,
  read_comma,
  read_comma_links,
  read_assignment,
  read_assigned,
  read_choice,
  read_branches,
  read_otherwise,
  read_joined,
  read_prefix,
  read_cast,
  read_signed,
  read_postfix,
  read_primary,
  read_parenthesized,
  read_suffix,
  read_suffixes,
  read_index,
  read_call,
  read_arguments,
};
ghost use Rattle.fk_expr.specs.Ahead.{readers, read_link, read_links};
ghost use Rattle.fk_expr.specs.Grammar.{chained};
ghost use Rattle.fk_parse_combinators.specs.Ahead.{seen, Shortens};
ghost use Rattle.fk_parse_combinators.specs.Gives.{Gives, Makes};

use crate::level::{open, open_expression, open_prefix};
use crate::parts::{mark, puts, size_of};
use crate::told::{
    assignment_is_next, cast_is_next, expect_assignment, expect_number, expect_operator,
    expect_prefix, expression_is_next, next_looseness, number_is_next, operator_is_next,
    prefix_is_next, suffix_is_next,
};
use crate::types::type_name;
use crate::whole::{with_branches, with_links, with_suffixes, with_value};
use fk_lex::token::TokenKind;
use fk_parse_combinators::cursor::{Cursor, Numbered};
use fk_parse_combinators::fault::SyntaxFault;
use fk_syntax::expression::{Expr, Link, Suffix};
use fk_syntax::sign::Sign;
use std::alloc::Global;

/// The looseness of the loosest binary operators.
const LOOSEST: u32 = 10;

/// comma = assign { "," assign }
#[cycle(expression)]
#[tactic(auto, using(crate::proofs::Halting::halting), unfolding(crate::specs::Reading::read_comma))]
pub fn comma<'a>(
    alloc: Global,
    cursor: &mut Cursor<'_, 'a>,
    left: u32,
) -> Result<Expr<'a>, SyntaxFault>
    ensures read { Gives tree_of result cursor.new
        (read_comma (inner left) cursor.old) }
    ensures shorter { IfOk result (λ _. Shortens cursor.old cursor.new) }
{
    let first = assignment(alloc, cursor, left)?;
    let links = comma_links(alloc, cursor, left);
    with_links(alloc, first, links)
}

/// { "," assign }
#[cycle(expression)]
#[tactic(auto, using(crate::proofs::Halting::halting))]
fn comma_links<'a>(
    alloc: Global,
    cursor: &mut Cursor<'_, 'a>,
    left: u32,
) -> Result<Vec<Link<'a>>, SyntaxFault>
    ensures read { Gives (λ links. map link_of links.items) result cursor.new
        (read_comma_links (inner left) cursor.old) }
    ensures few { IfOk result (λ _. length cursor.new ≤ length cursor.old) }
{
    let mut links = Vec::new(alloc);
    while let Some(sign) = cursor.accept(TokenKind::Comma) {
        let right = assignment(alloc, cursor, left)?;
        links.push(Link::new(sign.spot(), Sign::Comma, right))?;
    }
    Ok(links)
}

/// assign = choose [ asign assign ]
#[cycle(expression)]
#[tactic(auto, using(crate::proofs::Halting::halting), unfolding(crate::specs::Reading::read_assignment))]
pub fn assignment<'a>(
    alloc: Global,
    cursor: &mut Cursor<'_, 'a>,
    left: u32,
) -> Result<Expr<'a>, SyntaxFault>
    ensures read { Gives tree_of result cursor.new
        (read_assignment (inner left) cursor.old) }
    ensures shorter { IfOk result (λ _. Shortens cursor.old cursor.new) }
{
    let target = choice(alloc, cursor, left)?;
    if !assignment_is_next(cursor) {
        return Ok(target);
    }
    let value = assigned(alloc, cursor, left);
    with_value(alloc, target, value)
}

/// asign assign
#[cycle(expression)]
#[tactic(auto, using(crate::proofs::Halting::halting))]
fn assigned<'a>(
    alloc: Global,
    cursor: &mut Cursor<'_, 'a>,
    left: u32,
) -> Result<((Numbered<'a>, Sign), Expr<'a>), SyntaxFault>
    ensures read { Gives (λ x. ((seen x.0.0, x.0.1), tree_of x.1)) result cursor.new
        (read_assigned (inner left) cursor.old) }
    ensures few { IfOk result (λ _. length cursor.new ≤ length cursor.old) }
{
    let sign = expect_assignment(cursor)?;
    let inside = open_expression(cursor, left)?;
    Ok((sign, assignment(alloc, cursor, inside)?))
}

/// choose = binary [ "?" comma ":" choose ]
#[cycle(expression)]
#[tactic(auto, using(crate::proofs::Halting::halting), unfolding(crate::specs::Reading::read_choice))]
fn choice<'a>(
    alloc: Global,
    cursor: &mut Cursor<'_, 'a>,
    left: u32,
) -> Result<Expr<'a>, SyntaxFault>
    ensures read { Gives tree_of result cursor.new
        (read_choice (inner left) cursor.old) }
    ensures shorter { IfOk result (λ _. Shortens cursor.old cursor.new) }
{
    let condition = joined(alloc, cursor, left, LOOSEST)?;
    if !cursor.next_is(TokenKind::Question) {
        return Ok(condition);
    }
    let branches = branches(alloc, cursor, left);
    with_branches(alloc, condition, branches)
}

/// "?" comma ":" choose
#[cycle(expression)]
#[tactic(auto, using(crate::proofs::Halting::halting))]
fn branches<'a>(
    alloc: Global,
    cursor: &mut Cursor<'_, 'a>,
    left: u32,
) -> Result<(Numbered<'a>, (Expr<'a>, (Numbered<'a>, Expr<'a>))), SyntaxFault>
    ensures read { Gives (λ x. (seen x.0, (tree_of x.1.0, (seen x.1.1.0, tree_of x.1.1.1))))
        result cursor.new (read_branches (inner left) cursor.old) }
    ensures few { IfOk result (λ _. length cursor.new ≤ length cursor.old) }
{
    let inside = open(cursor, TokenKind::Question, left)?;
    let question = cursor.expect(TokenKind::Question)?;
    let first = comma(alloc, cursor, inside)?;
    match otherwise(alloc, cursor, inside) {
        Ok(second) => Ok((question, (first, second))),
        Err(fault) => {
            drop(first);
            Err(fault)
        }
    }
}

/// ":" choose
#[cycle(expression)]
#[tactic(auto, using(crate::proofs::Halting::halting))]
fn otherwise<'a>(
    alloc: Global,
    cursor: &mut Cursor<'_, 'a>,
    left: u32,
) -> Result<(Numbered<'a>, Expr<'a>), SyntaxFault>
    ensures read { Gives (λ x. (seen x.0, tree_of x.1)) result cursor.new
        (read_otherwise (readers left) cursor.old) }
    ensures shorter { IfOk result (λ _. Shortens cursor.old cursor.new) }
{
    let colon = cursor.expect(TokenKind::Colon)?;
    Ok((colon, choice(alloc, cursor, left)?))
}

/// Operands joined by operators with at most this looseness. Each level of looseness groups to the
/// left. The levels are read from the tightest on, and those without an operator at the cursor are
/// skipped.
#[cycle(expression)]
#[tactic(auto, using(crate::proofs::Halting::halting))]
fn joined<'a>(
    alloc: Global,
    cursor: &mut Cursor<'_, 'a>,
    left: u32,
    looseness: u32,
) -> Result<Expr<'a>, SyntaxFault>
    requires { looseness ≤ 10 }
    ensures read { Gives tree_of result cursor.new
        (read_joined (inner left) looseness cursor.old) }
    ensures shorter { IfOk result (λ _. Shortens cursor.old cursor.new) }
{
    let mut whole = prefix(alloc, cursor, left)?;
    let mut tighter = 0;
    while let Some(next) = next_looseness(cursor, tighter, looseness) {
        whole = level(alloc, cursor, left, next, whole)?;
        tighter = next;
    }
    Ok(whole)
}

/// An operand that has been read, and the operands joined to it by operators with exactly this
/// looseness.
#[cycle(expression)]
#[tactic(auto, using(crate::proofs::Halting::halting))]
fn level<'a>(
    alloc: Global,
    cursor: &mut Cursor<'_, 'a>,
    left: u32,
    looseness: u32,
    first: Expr<'a>,
) -> Result<Expr<'a>, SyntaxFault>
    requires { (0 < looseness) × (looseness ≤ 10) }
    ensures read { Makes (chained (tree_of first.entry)) tree_of result cursor.new
        (read_links (inner left) looseness (looseness - 1) cursor.old) }
    ensures fewer { IfOk result (λ _. length cursor.new ≤ length cursor.old) }
{
    let links = links(alloc, cursor, left, looseness);
    with_links(alloc, first, links)
}

/// Operators with exactly this looseness, each with its right operand.
#[cycle(expression)]
#[tactic(auto, using(crate::proofs::Halting::halting))]
fn links<'a>(
    alloc: Global,
    cursor: &mut Cursor<'_, 'a>,
    left: u32,
    looseness: u32,
) -> Result<Vec<Link<'a>>, SyntaxFault>
    requires { (0 < looseness) × (looseness ≤ 10) }
    ensures read { Gives (λ links. map link_of links.items) result cursor.new
        (read_links (inner left) looseness (looseness - 1) cursor.old) }
    ensures few { IfOk result (λ _. length cursor.new ≤ length cursor.old) }
{
    // Most levels have one operator.
    let mut links = Vec::with_capacity(alloc, 1)?;
    while operator_is_next(cursor, looseness) {
        links.push(link(alloc, cursor, left, looseness)?)?;
    }
    Ok(links)
}

/// An operator with this looseness, with its right operand.
#[cycle(expression)]
#[tactic(auto, using(crate::proofs::Halting::halting))]
fn link<'a>(
    alloc: Global,
    cursor: &mut Cursor<'_, 'a>,
    left: u32,
    looseness: u32,
) -> Result<Link<'a>, SyntaxFault>
    requires { (0 < looseness) × (looseness ≤ 10) }
    ensures read { Gives link_of result cursor.new
        (read_link (inner left) looseness (looseness - 1) cursor.old) }
    ensures shorter { IfOk result (λ _. Shortens cursor.old cursor.new) }
{
    let (token, sign) = expect_operator(cursor, looseness)?;
    let right = joined(alloc, cursor, left, looseness - 1)?;
    Ok(Link::new(token.spot(), sign, right))
}

/// prefix = sign prefix | "(" type stars ")" prefix | "sizeof" "(" type stars ")" | postfix
#[cycle(expression)]
#[tactic(auto, using(crate::proofs::Halting::halting), unfolding(crate::specs::Reading::read_prefix))]
fn prefix<'a>(
    alloc: Global,
    cursor: &mut Cursor<'_, 'a>,
    left: u32,
) -> Result<Expr<'a>, SyntaxFault>
    ensures read { Gives tree_of result cursor.new
        (read_prefix (inner left) cursor.old) }
    ensures shorter { IfOk result (λ _. Shortens cursor.old cursor.new) }
{
    if prefix_is_next(cursor) {
        return signed(alloc, cursor, left);
    }
    if cast_is_next(cursor) {
        return cast(alloc, cursor, left);
    }
    if cursor.next_is(TokenKind::Sizeof) {
        return size_of(cursor, left);
    }
    postfix(alloc, cursor, left)
}

/// sign prefix
#[cycle(expression)]
#[tactic(auto, using(crate::proofs::Halting::halting), unfolding(crate::specs::Reading::read_signed))]
fn signed<'a>(
    alloc: Global,
    cursor: &mut Cursor<'_, 'a>,
    left: u32,
) -> Result<Expr<'a>, SyntaxFault>
    ensures read { Gives tree_of result cursor.new
        (read_signed (inner left) cursor.old) }
    ensures shorter { IfOk result (λ _. Shortens cursor.old cursor.new) }
{
    let inside = open_prefix(cursor, left)?;
    let (token, sign) = expect_prefix(cursor)?;
    let operand = prefix(alloc, cursor, inside)?;
    Ok(Expr::prefix(alloc, token.spot(), sign, operand)?)
}

/// "(" type stars ")" prefix
#[cycle(expression)]
#[tactic(auto, using(crate::proofs::Halting::halting), unfolding(crate::specs::Reading::read_cast))]
fn cast<'a>(alloc: Global, cursor: &mut Cursor<'_, 'a>, left: u32) -> Result<Expr<'a>, SyntaxFault>
    ensures read { Gives tree_of result cursor.new
        (read_cast (inner left) cursor.old) }
    ensures shorter { IfOk result (λ _. Shortens cursor.old cursor.new) }
{
    let inside = open(cursor, TokenKind::OpenParenthesis, left)?;
    let open = cursor.expect(TokenKind::OpenParenthesis)?;
    let kind = type_name(cursor)?;
    cursor.expect(TokenKind::CloseParenthesis)?;
    let operand = prefix(alloc, cursor, inside)?;
    Ok(Expr::cast(alloc, open.spot(), kind, operand)?)
}

/// postfix = primary { suffix }
#[cycle(expression)]
#[tactic(auto, using(crate::proofs::Halting::halting), unfolding(crate::specs::Reading::read_postfix))]
fn postfix<'a>(
    alloc: Global,
    cursor: &mut Cursor<'_, 'a>,
    left: u32,
) -> Result<Expr<'a>, SyntaxFault>
    ensures read { Gives tree_of result cursor.new
        (read_postfix (inner left) cursor.old) }
    ensures shorter { IfOk result (λ _. Shortens cursor.old cursor.new) }
{
    let whole = primary(alloc, cursor, left)?;
    let suffixes = suffixes(alloc, cursor, left);
    with_suffixes(alloc, whole, suffixes)
}

/// { suffix }
#[cycle(expression)]
#[tactic(auto, using(crate::proofs::Halting::halting))]
fn suffixes<'a>(
    alloc: Global,
    cursor: &mut Cursor<'_, 'a>,
    left: u32,
) -> Result<Vec<Suffix<'a>>, SyntaxFault>
    ensures read { Gives (λ suffixes. map suffix_of suffixes.items) result cursor.new
        (read_suffixes (inner left) cursor.old) }
    ensures few { IfOk result (λ _. length cursor.new ≤ length cursor.old) }
{
    let mut suffixes = Vec::new(alloc);
    while suffix_is_next(cursor) {
        suffixes.push(suffix(alloc, cursor, left)?)?;
    }
    Ok(suffixes)
}

/// primary = Number | Name | "@" | "$" | "(" comma ")" | "puts" "(" Text ")"
#[cycle(expression)]
#[tactic(auto, using(crate::proofs::Halting::halting), unfolding(crate::specs::Reading::read_primary))]
fn primary<'a>(
    alloc: Global,
    cursor: &mut Cursor<'_, 'a>,
    left: u32,
) -> Result<Expr<'a>, SyntaxFault>
    ensures read { Gives tree_of result cursor.new (read_primary (inner left) cursor.old) }
    ensures shorter { IfOk result (λ _. Shortens cursor.old cursor.new) }
{
    if number_is_next(cursor) {
        let (token, (value, unsigned)) = expect_number(cursor)?;
        return Ok(Expr::Number(token.spot(), value, unsigned));
    }
    if let Some(word) = cursor.accept(TokenKind::Word) {
        return Ok(Expr::Named(word.name()));
    }
    if let Some(at) = cursor.accept(TokenKind::At) {
        return Ok(Expr::GroupNumber(at.spot()));
    }
    if let Some(dollar) = cursor.accept(TokenKind::Dollar) {
        return Ok(Expr::GroupRank(dollar.spot()));
    }
    if cursor.next_is(TokenKind::OpenParenthesis) {
        return parenthesized(alloc, cursor, left);
    }
    puts(cursor, left)
}

/// "(" comma ")"
#[cycle(expression)]
#[tactic(auto, using(crate::proofs::Halting::halting))]
fn parenthesized<'a>(
    alloc: Global,
    cursor: &mut Cursor<'_, 'a>,
    left: u32,
) -> Result<Expr<'a>, SyntaxFault>
    ensures read { Gives tree_of result cursor.new
        (read_parenthesized (inner left) cursor.old) }
    ensures shorter { IfOk result (λ _. Shortens cursor.old cursor.new) }
{
    let inside = open(cursor, TokenKind::OpenParenthesis, left)?;
    cursor.expect(TokenKind::OpenParenthesis)?;
    let value = comma(alloc, cursor, inside)?;
    cursor.expect(TokenKind::CloseParenthesis)?;
    Ok(value)
}

/// "[" comma "]" | "(" arguments ")" | "." Name | "->" Name | "++" | "--"
#[cycle(expression)]
#[tactic(auto, using(crate::proofs::Halting::halting), unfolding(crate::specs::Reading::read_suffix))]
fn suffix<'a>(
    alloc: Global,
    cursor: &mut Cursor<'_, 'a>,
    left: u32,
) -> Result<Suffix<'a>, SyntaxFault>
    ensures read { Gives suffix_of result cursor.new
        (read_suffix (inner left) cursor.old) }
    ensures shorter { IfOk result (λ _. Shortens cursor.old cursor.new) }
{
    if cursor.next_is(TokenKind::OpenBracket) {
        return index(alloc, cursor, left);
    }
    if cursor.next_is(TokenKind::OpenParenthesis) {
        return call(alloc, cursor, left);
    }
    mark(cursor)
}

/// "[" comma "]"
#[cycle(expression)]
#[tactic(auto, using(crate::proofs::Halting::halting))]
fn index<'a>(
    alloc: Global,
    cursor: &mut Cursor<'_, 'a>,
    left: u32,
) -> Result<Suffix<'a>, SyntaxFault>
    ensures read { Gives suffix_of result cursor.new (read_index (inner left) cursor.old) }
    ensures shorter { IfOk result (λ _. Shortens cursor.old cursor.new) }
{
    let inside = open(cursor, TokenKind::OpenBracket, left)?;
    let open = cursor.expect(TokenKind::OpenBracket)?;
    let by = comma(alloc, cursor, inside)?;
    cursor.expect(TokenKind::CloseBracket)?;
    Ok(Suffix::index(open.spot(), by))
}

/// "(" arguments ")"
#[cycle(expression)]
#[tactic(auto, using(crate::proofs::Halting::halting))]
fn call<'a>(
    alloc: Global,
    cursor: &mut Cursor<'_, 'a>,
    left: u32,
) -> Result<Suffix<'a>, SyntaxFault>
    ensures read { Gives suffix_of result cursor.new (read_call (inner left) cursor.old) }
    ensures shorter { IfOk result (λ _. Shortens cursor.old cursor.new) }
{
    let inside = open(cursor, TokenKind::OpenParenthesis, left)?;
    let open = cursor.expect(TokenKind::OpenParenthesis)?;
    let arguments = arguments(alloc, cursor, inside)?;
    cursor.expect(TokenKind::CloseParenthesis)?;
    Ok(Suffix::call(open.spot(), arguments))
}

/// [ assign { "," assign } ]
#[cycle(expression)]
#[tactic(auto, using(crate::proofs::Halting::halting), unfolding(crate::specs::Reading::read_arguments))]
fn arguments<'a>(
    alloc: Global,
    cursor: &mut Cursor<'_, 'a>,
    left: u32,
) -> Result<Vec<Expr<'a>>, SyntaxFault>
    ensures read { Gives (λ v. map tree_of v.items) result cursor.new
        (read_arguments (readers left) cursor.old) }
    ensures few { IfOk result (λ _. length cursor.new ≤ length cursor.old) }
{
    let mut arguments = Vec::new(alloc);
    if !expression_is_next(cursor) {
        return Ok(arguments);
    }
    arguments.push(assignment(alloc, cursor, left)?)?;
    while let Some(_comma) = cursor.accept(TokenKind::Comma) {
        arguments.push(assignment(alloc, cursor, left)?)?;
    }
    Ok(arguments)
}
