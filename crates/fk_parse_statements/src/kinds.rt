//! The kinds of tokens that begin a statement.

ghost use Rattle.std.specs.Prelude.{◌≡◌};
ghost use Rattle.fk_parse_statements.specs.Reading.{begins_bare, begins_word, begins_statement};

use fk_expr::kinds::begins_expression;
use fk_lex::token::TokenKind;
use fk_parse_declarations::kinds::begins_parameter;

/// Whether a token of this kind is a keyword that begins a statement.
#[tactic(auto, unfolding(fk_parse_combinators::specs::Kinds::just))]
pub fn begins_word(kind: TokenKind) -> bool
    ensures { result ≡ begins_word kind }
{
    matches!(
        kind,
        TokenKind::If
            | TokenKind::While
            | TokenKind::Do
            | TokenKind::For
            | TokenKind::Start
            | TokenKind::Farm
            | TokenKind::Seq
            | TokenKind::Fork
            | TokenKind::Barrier
            | TokenKind::Break
            | TokenKind::Continue
            | TokenKind::Return
    )
}

/// Whether a block or an empty statement begins with a token of this kind.
#[tactic(auto, unfolding(fk_parse_combinators::specs::Kinds::just))]
pub fn begins_bare(kind: TokenKind) -> bool
    ensures { result ≡ begins_bare kind }
{
    matches!(kind, TokenKind::OpenBrace | TokenKind::Semicolon)
}

/// Whether a statement begins with a token of this kind.
pub fn begins_statement(kind: TokenKind) -> bool
    ensures { result ≡ begins_statement kind }
{
    begins_bare(kind) || begins_parameter(kind) || begins_word(kind) || begins_expression(kind)
}
