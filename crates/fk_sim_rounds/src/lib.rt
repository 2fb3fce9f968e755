//! A cycle of a machine whose harts match a state is a round of the run beside it.
//!
//! The definitions are in `specs/`, and the laws proved of them in `laws`.
#![tactic(auto)]

pub mod laws;
