//! The tokens of Fork95.

use fk_syntax::Place;
use std::alloc::AllocError;
use thiserror::Error;

/// The kind of a token: a word that isn't a keyword, a number with its value and whether its type
/// is `unsigned`, a text, a keyword or a sign.
#[derive(Clone, Copy, PartialEq, Eq)]
pub enum TokenKind {
    Word,
    Number(u32, bool),
    Text,
    Int,
    Unsigned,
    Void,
    Struct,
    Sh,
    Pr,
    Sync,
    Async,
    Straight,
    If,
    Else,
    While,
    Do,
    For,
    Start,
    Farm,
    Seq,
    Fork,
    Join,
    Barrier,
    Break,
    Continue,
    Return,
    Sizeof,
    Puts,
    Plus,
    Minus,
    Star,
    Slash,
    Percent,
    Ampersand,
    Bar,
    Caret,
    Tilde,
    Exclamation,
    ShiftLeft,
    ShiftRight,
    LessThan,
    LessOrEqual,
    GreaterThan,
    GreaterOrEqual,
    EqualTo,
    NotEqualTo,
    AndAnd,
    OrOr,
    Assign,
    PlusAssign,
    MinusAssign,
    StarAssign,
    SlashAssign,
    PercentAssign,
    AmpersandAssign,
    BarAssign,
    CaretAssign,
    ShiftLeftAssign,
    ShiftRightAssign,
    Increment,
    Decrement,
    Question,
    Colon,
    Comma,
    Semicolon,
    OpenParenthesis,
    CloseParenthesis,
    OpenBrace,
    CloseBrace,
    OpenBracket,
    CloseBracket,
    Dot,
    Arrow,
    At,
    Dollar,
}

/// A token with its bytes in the source and the place of the first one.
#[derive(Clone, Copy)]
pub struct Token<'a> {
    pub kind: TokenKind,
    pub bytes: &'a [u8],
    pub place: Place,
}

/// Why a source can't be cut into tokens.
#[derive(Debug, Drop, Error)]
pub enum LexFault {
    /// A byte that doesn't belong to a token, a blank, a comment or an include line.
    #[error("BadByte")]
    BadByte(Place),
    /// A comment that isn't closed. The place is its `/*`.
    #[error("OpenComment")]
    OpenComment(Place),
    /// A text whose line or source ends before its closing quote. The place is its opening quote.
    #[error("OpenString")]
    OpenString(Place),
    /// A number above 2^32 - 1. The place is its first byte.
    #[error("WideNumber")]
    WideNumber(Place),
    /// There isn't enough memory for the tokens.
    #[error("Memory")]
    Memory(AllocError),
}
