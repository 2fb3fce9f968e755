//! The sharing of a Fork95 program: the class of each expression, where a group splits, and which
//! rules about both a program breaks.
#![tactic(auto)]

mod around;
mod check;
mod collect;
mod judge;
pub mod laws;
mod marks;
mod token;

pub use check::sharing;
