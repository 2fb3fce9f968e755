//! What is known of the values of a call at each index of a flat list: how many there are, and
//! which are addresses that may be used. Lists of well typed code have such knowledge.
//!
//! The definitions are in `specs/`, and the laws proved of them in `laws`.
#![tactic(auto)]

mod change;
mod constants;
pub mod laws;
mod places;

pub use change::Change;
pub use constants::{Constant, Constants};
pub use places::Within;
