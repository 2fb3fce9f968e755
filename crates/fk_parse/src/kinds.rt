//! The modes by kinds of tokens, and the kinds that begin an item.

ghost use Rattle.std.specs.Prelude.{◌≡◌};
ghost use Rattle.fk_parse.specs.Kinds.{mode_told};
ghost use Rattle.fk_parse.specs.Reading.{begins_item};

use fk_lex::token::TokenKind;
use fk_parse_declarations::kinds::begins_parameter;
use fk_syntax::program::Mode;

/// The mode that a kind of token denotes, if it is that of a mode word.
pub fn mode(kind: TokenKind) -> Option<Mode>
    ensures { result ≡ mode_told kind }
{
    match kind {
        TokenKind::Sync => Some(Mode::Sync),
        TokenKind::Async => Some(Mode::Async),
        TokenKind::Straight => Some(Mode::Straight),
        _ => None,
    }
}

/// Whether an item begins with a token of this kind.
pub fn begins_item(kind: TokenKind) -> bool
    ensures { result ≡ begins_item kind }
{
    begins_parameter(kind) || mode(kind).is_some()
}
