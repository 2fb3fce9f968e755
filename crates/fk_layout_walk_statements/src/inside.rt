//! The function around statements.

/// The facts about a function that its statements need.
#[derive(Clone, Copy, PartialEq, Eq, Debug)]
pub struct Inside {
    /// Whether the function is `main`.
    pub main: bool,
    /// Whether calls of the function have a group frame of their own.
    pub framed: bool,
}
