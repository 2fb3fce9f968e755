//! Locks of tickets, as two words and what is done with them one request after the other.
//!
//! The definitions are in `specs/`, and what is proved of them is in `laws`. Neither speaks of
//! programs or runs.
#![tactic(auto)]

pub mod laws;
