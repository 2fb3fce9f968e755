//! What a trace tells.

use smallvec::SmallVec;

/// Each of the harts from `first` to `last` does `count` operations.
#[derive(Clone, Copy, Default)]
pub struct Acts {
    pub first: u32,
    pub last: u32,
    pub count: u32,
}

/// A cycle in which some hart acts. Most cycles have one range, which takes no memory of its own.
#[derive(Drop)]
pub struct Moment {
    pub cycle: u32,
    pub acts: SmallVec<Acts, 1>,
}

/// A trace: the number of harts, the cycles in which some hart acts, in their order, and the number
/// of all cycles.
#[derive(Drop)]
pub struct Trace {
    pub harts: u32,
    pub moments: Vec<Moment>,
    pub cycles: u32,
}
