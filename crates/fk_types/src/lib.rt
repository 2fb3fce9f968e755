//! The types of a Fork95 program: the first rule about names and types that it breaks, or its
//! facts.
#![tactic(auto)]

mod check;
mod facts;

pub use check::types;
