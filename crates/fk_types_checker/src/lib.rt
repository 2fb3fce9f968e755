//! The first rule about names and types that a program breaks, and the types of its tokens.
#![tactic(auto)]

mod check;
mod constant;
mod judge;
mod notes;
mod values;

pub use check::program_fault;
pub use judge::pieces_fault;
