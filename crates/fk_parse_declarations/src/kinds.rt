//! What a kind of token tells of sharing, and the kinds that begin a parameter.

ghost use Rattle.std.specs.Prelude.{◌≡◌};
ghost use Rattle.fk_parse_declarations.specs.Kinds.{sharing_told};
ghost use Rattle.fk_parse_declarations.specs.Reading.{begins_parameter};

use fk_expr::kinds::begins_type;
use fk_lex::token::TokenKind;

/// Whether a sharing word is `sh`; `None` if the token isn't a sharing word.
pub fn sharing(kind: TokenKind) -> Option<bool>
    ensures { result ≡ sharing_told kind }
{
    match kind {
        TokenKind::Sh => Some(true),
        TokenKind::Pr => Some(false),
        _ => None,
    }
}

/// Whether a parameter, or a declaration of variables, begins with a token of this kind.
pub fn begins_parameter(kind: TokenKind) -> bool
    ensures { result ≡ begins_parameter kind }
{
    sharing(kind).is_some() || begins_type(kind)
}
