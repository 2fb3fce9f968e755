//! One round of a run in memory.
#![tactic(auto)]

mod enlist;
mod rounds;

pub use rounds::{Outcome, take_round};
