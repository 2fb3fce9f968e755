//! The functions in which the operations of a list are.

/// The function in which an index is.
#[derive(Clone, Copy, PartialEq, Eq, Debug)]
pub enum FunctionKind {
    Main,
    /// A function that is called, and whether it gives a value.
    Called(bool),
}
