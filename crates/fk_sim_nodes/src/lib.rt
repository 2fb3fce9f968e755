//! What the members of a node of the tree do on the machine, and how they meet at a barrier.
//!
//! The definitions are in `specs/`, and the laws proved of them in `laws`.
#![tactic(auto)]

pub mod laws;
