//! The meaning of a program: its next operation, processors, rounds and lawful schedules, and the
//! work that is left after the parts of a group.
//!
//! The definitions are in `specs/`, and what is proved of them is in `laws`.
#![tactic(auto)]

pub mod laws;
