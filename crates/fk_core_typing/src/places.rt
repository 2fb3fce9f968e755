//! The functions in which the operations of a list are.

/// The function in which a place is.
#[derive(Clone, Copy, PartialEq, Eq, Debug)]
pub enum Within {
    Main,
    /// A function that is called, and whether it gives a value.
    Called(bool),
}
