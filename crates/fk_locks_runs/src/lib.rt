//! Locks of tickets in runs: two words of shared data, and the requests that access them.
//!
//! The definitions are in `specs/`, and what is proved of them is in `laws`.
#![tactic(auto)]

pub mod laws;
