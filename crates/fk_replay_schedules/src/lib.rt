//! The laws by which a replay tells whether a schedule is lawful.
//!
//! The definitions are in `specs/`, and what is proved of them is in `laws`.
#![tactic(auto)]

pub mod laws;
