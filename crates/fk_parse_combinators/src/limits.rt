//! The bound on nesting, which isn't part of the grammar.

/// The greatest number of levels of nesting that may be open at a token.
pub const LEVELS: u32 = 128;
