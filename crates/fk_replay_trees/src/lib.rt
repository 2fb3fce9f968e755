//! The steps of the tree in a round.
#![tactic(auto)]

mod change;
mod modes;
mod settle;

pub use change::change_all;
pub use settle::settle_all;
