//! Properties of every parsed tree: its numbers fit into words, it has no chain without a sign and
//! no empty list of suffixes, and its group frames are in the order of its tokens.
//!
//! The definitions are in `specs/`, and what is proved of them is in `laws`.
#![tactic(auto)]

pub mod laws;
