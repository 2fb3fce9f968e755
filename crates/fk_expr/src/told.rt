//! The kinds of the next tokens: one that has a value or a sign, or one that begins a production.

ghost use Rattle.std.specs.Prelude.{◌≡◌, ◌<◌, ◌≤◌, ◌+◌, ◌^◌, None, IfErr, IfOk};
ghost use Rattle.std.specs.Prelude.{length};
ghost use Rattle.std.specs.Option.{IfSome};
ghost use Rattle.fk_expr.specs.Kinds.{number_told, prefix_told, assignment_told};
ghost use Rattle.fk_expr.specs.Grammar.{operator_at};
ghost use Rattle.fk_expr.specs.Reading.{
  begins_type,
  begins_expression,
  begins_suffix,
  cast_is_next,
};
ghost use Rattle.fk_expr.specs.Ahead.{NoOperator};
ghost use Rattle.fk_parse_combinators.specs.Readers.{next_is, tells, next_tells, expect_told};
ghost use Rattle.fk_parse_combinators.specs.Ahead.{seen, Shortens};
ghost use Rattle.fk_parse_combinators.specs.Faults.{IsMemory};
ghost use Rattle.fk_parse_combinators.specs.Gives.{Gives};

use crate::kinds::{
    assignment_sign, begins_expression, begins_suffix, begins_type, number, operator,
    operator_sign, prefix_sign,
};
use fk_lex::token::TokenKind;
use fk_parse_combinators::cursor::{Cursor, Numbered};
use fk_parse_combinators::fault::SyntaxFault;
use fk_syntax::sign::Sign;

/// Reads the next token, which must be a number. Returns its value, and whether it is `unsigned`.
pub fn expect_number<'a>(
    cursor: &mut Cursor<'_, 'a>,
) -> Result<(Numbered<'a>, (u32, bool)), SyntaxFault>
    ensures read { Gives (λ x. (seen x.0, x.1)) result cursor.new
        (expect_told number_told cursor.old) }
    ensures shorter { IfOk result (λ _. Shortens cursor.old cursor.new) }
    ensures no_memory { IfErr result (λ fault. ¬ IsMemory fault) }
{
    let Some(value) = next_number(cursor) else {
        return Err(cursor.unexpected());
    };
    Ok((cursor.next()?, value))
}

/// Reads the next token, which must be a sign before an operand.
pub(crate) fn expect_prefix<'a>(
    cursor: &mut Cursor<'_, 'a>,
) -> Result<(Numbered<'a>, Sign), SyntaxFault>
    ensures read { Gives (λ x. (seen x.0, x.1)) result cursor.new
        (expect_told prefix_told cursor.old) }
    ensures shorter { IfOk result (λ _. Shortens cursor.old cursor.new) }
    ensures no_memory { IfErr result (λ fault. ¬ IsMemory fault) }
{
    let Some(sign) = next_prefix(cursor) else {
        return Err(cursor.unexpected());
    };
    Ok((cursor.next()?, sign))
}

/// Reads the next token, which must be the sign of an assignment.
pub(crate) fn expect_assignment<'a>(
    cursor: &mut Cursor<'_, 'a>,
) -> Result<(Numbered<'a>, Sign), SyntaxFault>
    ensures read { Gives (λ x. (seen x.0, x.1)) result cursor.new
        (expect_told assignment_told cursor.old) }
    ensures shorter { IfOk result (λ _. Shortens cursor.old cursor.new) }
    ensures no_memory { IfErr result (λ fault. ¬ IsMemory fault) }
{
    let Some(sign) = next_assignment(cursor) else {
        return Err(cursor.unexpected());
    };
    Ok((cursor.next()?, sign))
}

/// Reads the next token, which must be an operator with this looseness.
pub(crate) fn expect_operator<'a>(
    cursor: &mut Cursor<'_, 'a>,
    looseness: u32,
) -> Result<(Numbered<'a>, Sign), SyntaxFault>
    ensures read { Gives (λ x. (seen x.0, x.1)) result cursor.new
        (expect_told (operator_at looseness) cursor.old) }
    ensures shorter { IfOk result (λ _. Shortens cursor.old cursor.new) }
    ensures no_memory { IfErr result (λ fault. ¬ IsMemory fault) }
{
    let Some(sign) = next_operator(cursor, looseness) else {
        return Err(cursor.unexpected());
    };
    Ok((cursor.next()?, sign))
}

/// Whether the next token begins a type.
pub fn type_is_next(cursor: &Cursor) -> bool
    ensures next { result ≡ next_is begins_type cursor.now }
    ensures few { length cursor.now < 2 ^ 32 }
{
    match cursor.peek() {
        Some(kind) => begins_type(kind),
        None => false,
    }
}

/// Whether the next token begins an expression.
pub fn expression_is_next(cursor: &Cursor) -> bool
    ensures next { result ≡ next_is begins_expression cursor.now }
    ensures few { length cursor.now < 2 ^ 32 }
{
    match cursor.peek() {
        Some(kind) => begins_expression(kind),
        None => false,
    }
}

/// Whether the next token begins a suffix.
pub(crate) fn suffix_is_next(cursor: &Cursor) -> bool
    ensures { result ≡ next_is begins_suffix cursor.now }
{
    match cursor.peek() {
        Some(kind) => begins_suffix(kind),
        None => false,
    }
}

/// Whether the next two tokens are a parenthesis and one that begins a type.
pub(crate) fn cast_is_next(cursor: &Cursor) -> bool
    ensures { result ≡ cast_is_next cursor.now }
{
    if !cursor.next_is(TokenKind::OpenParenthesis) {
        return false;
    }
    match cursor.second() {
        Some(kind) => begins_type(kind),
        None => false,
    }
}

/// Whether the next token is a number.
pub(crate) fn number_is_next(cursor: &Cursor) -> bool
    ensures { result ≡ next_is (tells number_told) cursor.now }
{
    next_number(cursor).is_some()
}

/// Whether the next token is a sign before an operand.
pub(crate) fn prefix_is_next(cursor: &Cursor) -> bool
    ensures { result ≡ next_is (tells prefix_told) cursor.now }
{
    next_prefix(cursor).is_some()
}

/// Whether the next token is the sign of an assignment.
pub(crate) fn assignment_is_next(cursor: &Cursor) -> bool
    ensures { result ≡ next_is (tells assignment_told) cursor.now }
{
    next_assignment(cursor).is_some()
}

/// Whether the next token is an operator with this looseness.
pub(crate) fn operator_is_next(cursor: &Cursor, looseness: u32) -> bool
    ensures { result ≡ next_is (tells (operator_at looseness)) cursor.now }
{
    next_operator(cursor, looseness).is_some()
}

/// The looseness of the next token, if it is an operator that is looser than `tighter` and at most
/// as loose as `looseness`.
pub(crate) fn next_looseness(cursor: &Cursor, tighter: u32, looseness: u32) -> Option<u32>
    ensures some { IfSome result
        (λ next. (tighter < next) × (next ≤ looseness) × NoOperator tighter next cursor.now) }
    ensures none { result ≡ None → NoOperator tighter (looseness + 1) cursor.now }
{
    match operator(cursor.peek()?) {
        Some((next, _)) if tighter < next && next <= looseness => Some(next),
        _ => None,
    }
}

/// The value of the next token, if it is a number.
fn next_number(cursor: &Cursor) -> Option<(u32, bool)>
    ensures { result ≡ next_tells number_told cursor.now }
{
    number(cursor.peek()?)
}

/// The next token's sign, if that may come before an operand.
fn next_prefix(cursor: &Cursor) -> Option<Sign>
    ensures { result ≡ next_tells prefix_told cursor.now }
{
    prefix_sign(cursor.peek()?)
}

/// The next token's sign, if it is that of an assignment.
fn next_assignment(cursor: &Cursor) -> Option<Sign>
    ensures { result ≡ next_tells assignment_told cursor.now }
{
    assignment_sign(cursor.peek()?)
}

/// The next token's sign, if it is an operator with this looseness.
fn next_operator(cursor: &Cursor, looseness: u32) -> Option<Sign>
    ensures { result ≡ next_tells (operator_at looseness) cursor.now }
{
    operator_sign(cursor.peek()?, looseness)
}
