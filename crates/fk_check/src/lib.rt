//! The forty rules of Fork95: the facts of a program that keeps them, or the first rule that it
//! breaks.
#![tactic(auto)]

mod check;
pub mod laws;

pub use check::checked;
