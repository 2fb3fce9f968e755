//! The reasons why a text is refused.

use fk_syntax::Place;
use std::alloc::AllocError;
use thiserror::Error;

/// The reason why a text is refused.
#[derive(Debug, Drop, Error)]
pub enum Refusal {
    /// A byte that begins no token.
    #[error("a bad byte")]
    BadByte(Place),
    /// A comment that isn't closed, at its `/*`.
    #[error("an open comment")]
    OpenComment(Place),
    /// A text in quotes whose line or source ends before its closing quote, at its opening quote.
    #[error("an open text")]
    OpenString(Place),
    /// A number above 2^32 - 1.
    #[error("a wide number")]
    WideNumber(Place),
    /// A token with which no text of the Fork95 grammar goes on, however deep a text may nest.
    #[error("an unexpected token")]
    Unexpected(Place),
    /// The tokens begin a text of the Fork95 grammar, but it isn't complete.
    #[error("the text ends too early")]
    EndOfText,
    /// A token that opens level 129 of nesting.
    #[error("too deep a nesting")]
    Nesting(Place),
    /// The text breaks the rule of the language with this number, first at this place.
    #[error("rule {1} is broken")]
    Rule(Place, u8),
    /// The text has this many operations, more than 16,000. Above 2^64 - 1 it is that number.
    #[error("{0} operations are too many")]
    TooManySites(u64),
    /// A function has a private frame of more than 64 words: the name of the first one, and its
    /// words. Above 2^32 - 1 it is that number.
    #[error("a private frame of {1} words is too large")]
    FrameTooLarge(Vec<u8>, u32),
    /// The shared variables of file scope have this many words, more than 524,288. Above 2^64 - 1
    /// it is that number.
    #[error("shared variables of {0} words are too large")]
    GlobalsTooLarge(u64),
    /// The text has this many bytes, more than 1,048,576.
    #[error("a text of {0} bytes is too long")]
    SourceTooLong(u64),
    /// There isn't enough memory for the image.
    #[error(transparent)]
    Memory(#[from(alloc)] AllocError),
}
