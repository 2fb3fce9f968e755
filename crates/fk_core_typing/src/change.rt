//! The effects of operations on the values of a call.

/// A change of a call's values: this many are dropped, and then one is pushed or none.
#[derive(Clone, Copy, PartialEq, Eq, Debug)]
pub struct Change {
    pub drops: u32,
    /// Whether a pushed value is an address that may be used.
    pub pushes: Option<bool>,
}
