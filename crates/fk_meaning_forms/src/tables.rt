//! Where the words of a program's variables lie.

/// Where the words of a declaration lie.
#[derive(Clone, Copy, PartialEq, Eq, Debug)]
pub enum Home {
    /// In shared data, by the index of the first word.
    Global,
    /// Among the private variables of file scope.
    FilePrivate,
    /// Among the private words of the function.
    Private,
    /// In the group frame with this number in the list of regions.
    Group(u32),
    /// Nowhere: the declaration has no word, such as that of a function.
    NoWord,
}

/// Where the words of one declaration lie.
#[derive(Clone, Copy, PartialEq, Eq, Debug)]
pub struct Slot {
    pub home: Home,
    /// The index of the first word there.
    pub index: u32,
}

/// A group frame that has words.
#[derive(Clone, Copy, PartialEq, Eq, Debug)]
pub struct Region {
    /// The index of its token: the name of a function, or the first keyword of a part.
    pub at: u32,
    /// 1 for the part of an `else`, else 0.
    pub part: u32,
    /// Its nesting level in its function, 0 for the function's own frame.
    pub level: u32,
    pub words: u32,
}

/// The number of words that a function takes in each of its calls.
#[derive(Clone, Copy, PartialEq, Eq, Debug)]
pub struct FrameSize {
    /// The number of its private words.
    pub private: u32,
    /// The number of words of its own group frame.
    pub shared: u32,
}
