//! The room that the frames of calls have for values and nested parts.
#![tactic(auto)]

mod extent;
mod measure;
mod operations;

pub use extent::{Extent, extent_of};
pub use measure::Measure;
pub use operations::{nests, pushes, takes};
