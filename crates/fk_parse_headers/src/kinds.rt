//! The kinds of tokens that begin a header.

ghost use Rattle.std.specs.Prelude.{◌≡◌};
ghost use Rattle.fk_parse_headers.specs.Headers.{begins_header};

use fk_lex::token::TokenKind;

/// Whether it is a word that begins what stands before the last statement in a statement.
#[tactic(auto, unfolding(fk_parse_combinators::specs::Kinds::just))]
pub fn begins_header(kind: TokenKind) -> bool
    ensures { result ≡ begins_header kind }
{
    matches!(
        kind,
        TokenKind::While
            | TokenKind::For
            | TokenKind::Start
            | TokenKind::Farm
            | TokenKind::Seq
            | TokenKind::Fork
    )
}
