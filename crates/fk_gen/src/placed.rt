//! An operation with what its block depends on.

use fk_core::CoreOp;

/// How the running call stands in the groups of its function, before an operation.
#[derive(Clone, Copy)]
pub struct Levels {
    /// How many levels of groups its frame has.
    pub count: u32,
    /// The word after the frame's header at which the first of them begins.
    pub behind: u32,
    /// In how many parts the call is, with the group of `start` among them.
    pub nest: u32,
    /// Whether a `fork` left the last of these levels, and how many words then are in the frame of
    /// the group that it divided.
    pub fork: Option<u32>,
}

/// An operation or jump of a flat list, in an image.
#[derive(Clone, Copy)]
pub struct Placed {
    pub op: CoreOp,
    /// The number of words of globals in the image.
    pub globals: u32,
    /// How many private words the call that it begins clears, from the first one on, before its
    /// arguments come there.
    pub clears: u32,
    /// The index where the caller goes on after the call that it begins, or 0 if it begins none.
    pub back: u32,
    pub levels: Levels,
}
