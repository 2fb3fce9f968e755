//! Rounds in which processors do several operations, as rounds of single operations.
//!
//! The definitions are in `specs/`, and what is proved of them is in `laws`.
#![tactic(auto)]

pub mod laws;
