//! A range of harts.

/// A range of harts with the same number.
#[derive(Clone, Copy)]
pub struct HartRange {
    pub first: u32,
    pub last: u32,
    pub number: u32,
}
