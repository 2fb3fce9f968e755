//! The lock's functions in the programs of texts that begin with the text of the lock.
//!
//! The definitions are in `specs/`, and what is proved of them is in `laws`.
#![tactic(auto)]

pub mod laws;
