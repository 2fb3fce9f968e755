//! The rules of Fork95, named by what they forbid, and the first of several that a text breaks.
#![tactic(auto)]

mod fault;
mod rule;

pub use fault::{Fault, fault_if, first_of};
pub use rule::Rule;
