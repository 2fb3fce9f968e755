//! What a flat list needs, so that code can be made of it, follows from its text.
//!
//! The definitions are in `specs/`, and the laws proved of them in `laws`.
#![tactic(auto)]

pub mod laws;
