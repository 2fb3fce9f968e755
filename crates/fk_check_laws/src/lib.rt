//! What follows for the code of a program from the rules of the language that it keeps.
//!
//! The definitions are in `specs/`, and what is proved of them is in `laws`.
#![tactic(auto)]

pub mod laws;
