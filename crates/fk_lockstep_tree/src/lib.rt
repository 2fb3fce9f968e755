//! Runs in which processors are where their operations and the tree of groups tell, and the lists
//! that have such runs.
//!
//! The definitions are in `specs/`, and what is proved of them is in `laws`.
#![tactic(auto)]

pub mod laws;
