//! The numbers and signs by kinds of tokens, and the kinds that begin a production.

ghost use Rattle.std.specs.Prelude.{◌≡◌};
ghost use Rattle.fk_parse_combinators.specs.Kinds.{just};
ghost use Rattle.fk_expr.specs.Kinds.{number_told, prefix_told, assignment_told, operator_told};
ghost use Rattle.fk_expr.specs.Grammar.{operator_at};
ghost use Rattle.fk_expr.specs.Reading.{
  begins_type,
  begins_primary,
  begins_expression,
  begins_suffix,
};

use fk_lex::token::TokenKind;
use fk_syntax::sign::Sign;

/// The value of a number, and whether its type is `unsigned`; `None` if the token isn't a number.
pub fn number(kind: TokenKind) -> Option<(u32, bool)>
    ensures { result ≡ number_told kind }
{
    match kind {
        TokenKind::Number(value, unsigned) => Some((value, unsigned)),
        _ => None,
    }
}

/// The sign, if it may come before an operand.
pub fn prefix_sign(kind: TokenKind) -> Option<Sign>
    ensures { result ≡ prefix_told kind }
{
    match kind {
        TokenKind::Minus => Some(Sign::Minus),
        TokenKind::Plus => Some(Sign::Plus),
        TokenKind::Exclamation => Some(Sign::Exclamation),
        TokenKind::Tilde => Some(Sign::Tilde),
        TokenKind::Star => Some(Sign::Star),
        TokenKind::Ampersand => Some(Sign::Ampersand),
        TokenKind::Increment => Some(Sign::Increment),
        TokenKind::Decrement => Some(Sign::Decrement),
        _ => None,
    }
}

/// The sign, if it is that of an assignment.
pub fn assignment_sign(kind: TokenKind) -> Option<Sign>
    ensures { result ≡ assignment_told kind }
{
    match kind {
        TokenKind::Assign => Some(Sign::Assign),
        TokenKind::PlusAssign => Some(Sign::PlusAssign),
        TokenKind::MinusAssign => Some(Sign::MinusAssign),
        TokenKind::StarAssign => Some(Sign::StarAssign),
        TokenKind::SlashAssign => Some(Sign::SlashAssign),
        TokenKind::PercentAssign => Some(Sign::PercentAssign),
        TokenKind::AmpersandAssign => Some(Sign::AmpersandAssign),
        TokenKind::BarAssign => Some(Sign::BarAssign),
        TokenKind::CaretAssign => Some(Sign::CaretAssign),
        TokenKind::ShiftLeftAssign => Some(Sign::ShiftLeftAssign),
        TokenKind::ShiftRightAssign => Some(Sign::ShiftRightAssign),
        _ => None,
    }
}

/// The looseness and the sign, if the token is a binary operator. The looseness is from 1 for `*`
/// to 10 for `||`.
pub fn operator(kind: TokenKind) -> Option<(u32, Sign)>
    ensures { result ≡ operator_told kind }
{
    match kind {
        TokenKind::Star => Some((1, Sign::Star)),
        TokenKind::Slash => Some((1, Sign::Slash)),
        TokenKind::Percent => Some((1, Sign::Percent)),
        TokenKind::Plus => Some((2, Sign::Plus)),
        TokenKind::Minus => Some((2, Sign::Minus)),
        TokenKind::ShiftLeft => Some((3, Sign::ShiftLeft)),
        TokenKind::ShiftRight => Some((3, Sign::ShiftRight)),
        TokenKind::LessThan => Some((4, Sign::LessThan)),
        TokenKind::LessOrEqual => Some((4, Sign::LessOrEqual)),
        TokenKind::GreaterThan => Some((4, Sign::GreaterThan)),
        TokenKind::GreaterOrEqual => Some((4, Sign::GreaterOrEqual)),
        TokenKind::EqualTo => Some((5, Sign::EqualTo)),
        TokenKind::NotEqualTo => Some((5, Sign::NotEqualTo)),
        TokenKind::Ampersand => Some((6, Sign::Ampersand)),
        TokenKind::Caret => Some((7, Sign::Caret)),
        TokenKind::Bar => Some((8, Sign::Bar)),
        TokenKind::AndAnd => Some((9, Sign::AndAnd)),
        TokenKind::OrOr => Some((10, Sign::OrOr)),
        _ => None,
    }
}

/// The sign, if it is a binary operator with this looseness.
pub fn operator_sign(kind: TokenKind, looseness: u32) -> Option<Sign>
    ensures { result ≡ operator_at looseness kind }
{
    match operator(kind) {
        Some((binds, sign)) if binds == looseness => Some(sign),
        _ => None,
    }
}

/// Whether a type begins with a token of this kind.
#[tactic(auto, unfolding(fk_parse_combinators::specs::Kinds::just))]
pub fn begins_type(kind: TokenKind) -> bool
    ensures { result ≡ begins_type kind }
{
    matches!(
        kind,
        TokenKind::Int | TokenKind::Unsigned | TokenKind::Void | TokenKind::Struct
    )
}

/// Whether a primary expression begins with a token of this kind.
#[tactic(auto, unfolding(fk_parse_combinators::specs::Kinds::just))]
pub fn begins_primary(kind: TokenKind) -> bool
    ensures { result ≡ begins_primary kind }
{
    matches!(
        kind,
        TokenKind::Number(_, _)
            | TokenKind::Word
            | TokenKind::At
            | TokenKind::Dollar
            | TokenKind::OpenParenthesis
            | TokenKind::Puts
    )
}

/// Whether an expression begins with a token of this kind.
pub fn begins_expression(kind: TokenKind) -> bool
    ensures { result ≡ begins_expression kind }
{
    prefix_sign(kind).is_some() || is_sizeof(kind) || begins_primary(kind)
}

/// Whether a suffix begins with a token of this kind.
#[tactic(auto, unfolding(fk_parse_combinators::specs::Kinds::just))]
pub fn begins_suffix(kind: TokenKind) -> bool
    ensures { result ≡ begins_suffix kind }
{
    matches!(
        kind,
        TokenKind::OpenBracket
            | TokenKind::OpenParenthesis
            | TokenKind::Dot
            | TokenKind::Arrow
            | TokenKind::Increment
            | TokenKind::Decrement
    )
}

/// Whether a token of this kind is the keyword `sizeof`.
#[tactic(auto, unfolding(fk_parse_combinators::specs::Kinds::just))]
fn is_sizeof(kind: TokenKind) -> bool
    ensures { result ≡ just TokenKind.Sizeof kind }
{
    TokenKind::Sizeof == kind
}
