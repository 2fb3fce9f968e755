//! The limits of programs: of their texts, their shared data and their code.

/// The most bytes of a source text, and of an input text.
pub const MOST_TEXT_BYTES: usize = 1_048_576;

/// The most words of shared data: of the globals and the input together. No type has more.
pub const MOST_DATA_WORDS: u32 = 524_288;

/// The most words of code.
pub const MOST_CODE_WORDS: u32 = 262_144;
