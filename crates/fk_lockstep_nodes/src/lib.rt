//! Rounds in which the members of several nodes of the tree of groups do steps.
//!
//! The definitions stand in `specs/`, and what is proved of them in `laws`.
#![tactic(auto)]

pub mod laws;
