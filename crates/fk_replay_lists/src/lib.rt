//! Lists that can be replayed: those of texts that keep all rules and have a layout.
//!
//! The definitions are in `specs/`, and what is proved of them is in `laws`.
#![tactic(auto)]

pub mod laws;
