//! Group frames: what the functions and the parts that a processor is in have taken of the spaces
//! of its groups.
//!
//! The definitions are in `specs/`, and the laws proved of them in `laws`.
#![tactic(auto)]

pub mod laws;
