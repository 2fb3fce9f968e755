//! The regions of a Fork95 program: where groups run in lockstep, where each processor runs by
//! itself, and which rules about regions a program breaks.
#![tactic(auto)]

mod around;
mod callee;
mod check;
mod collect;
mod judge;
mod marks;
mod token;

pub use around::{Region, region_of};
pub use check::regions;
