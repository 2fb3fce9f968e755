//! Code as a flat list of operations and jumps. A program has the same runs as its list.
//!
//! The definitions are in `specs/`, and the laws proved of them in `laws`.
#![tactic(auto)]

pub mod laws;
