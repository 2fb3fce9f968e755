//! The law of blocks: what the code of an operation does to its hart, alone and in a group.
//!
//! The definitions are in `specs/`, and the laws proved of them in `laws`.
#![tactic(auto)]

pub mod laws;
