//! Tokens, as far as the rules on regions need them.

ghost use Rattle.std.specs.Prelude.{◌≡◌};
ghost use Rattle.fk_regions.specs.Tokens.{word_of_sign, spelling_of};

use crate::around::Around;
use fk_syntax::{Sign, Spot};

/// The spelling of a name in an expression.
#[derive(Clone, Copy)]
pub enum Spelling {
    /// `shalloc`.
    Shalloc,
    Other,
}

/// The kind of a token.
#[derive(Clone, Copy)]
pub enum Word {
    If,
    /// `while`, `do` or `for`.
    Loop,
    Start,
    Fork,
    Farm,
    Seq,
    Barrier,
    Break,
    Continue,
    Return,
    /// `&&`, `||` or the `?` of a `?:`.
    Branching,
    /// A name in an expression.
    Name(Spelling),
    Other,
}

/// A token of a program, and its surroundings.
#[derive(Clone, Copy)]
pub struct Token {
    pub around: Around,
    pub spot: Spot,
    pub word: Word,
}

/// The kind of the sign of a chain.
pub(crate) fn word_of_sign(sign: Sign) -> Word
    ensures { result ≡ word_of_sign sign }
{
    match sign {
        Sign::AndAnd | Sign::OrOr => Word::Branching,
        _ => Word::Other,
    }
}

/// The spelling of a name.
pub(crate) fn spelling_of(name: &[u8]) -> Spelling
    ensures { result ≡ spelling_of name.now }
{
    if name == b"shalloc".as_slice() {
        Spelling::Shalloc
    } else {
        Spelling::Other
    }
}
