//! The rules about names and types that a program breaks, and its facts. A token has at most one
//! type and at most one binding.
//!
//! The definitions are in `specs/`, and what is proved of them is in `laws`.
#![tactic(auto)]

pub mod laws;
