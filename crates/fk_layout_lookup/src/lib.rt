//! Tables with which a walk over a text looks up functions and group frames in one step.
#![tactic(auto)]

mod lookup;

pub use lookup::Lookup;
