//! The registers with what a hart knows of its node.

/// The address of the node's first control word.
pub const NODE: u8 = 10;
/// The number of members that run the body of the innermost asynchronous node.
pub const BODY: u8 = 11;
/// The address of the first control word after the frames in the space of the hart's group.
pub const FRAMES: u8 = 12;
/// The address of the control word at which the blocks of that space begin.
pub const BLOCKS: u8 = 13;
