//! Constants among the last values of a call.

/// A value that is known at a place in code.
#[derive(Clone, Copy, PartialEq, Eq, Debug)]
pub enum Constant {
    Number(u32),
    /// The address of a word of the group frame that the call took at a nesting, 0 for that of the
    /// function.
    FrameWord { nesting: u32, word: u32 },
}

/// The constants that the last two values of a call are, if they are known.
#[derive(Clone, Copy, PartialEq, Eq, Debug)]
pub struct Constants {
    pub last: Option<Constant>,
    pub second: Option<Constant>,
}
