//! What the numbers and the names of a text are in its layout: each operation has a number, and
//! each variable of a group frame is named where its frame is open.
//!
//! The definitions are in `specs/`, and the laws proved of them in `laws`.
#![tactic(auto)]

pub mod laws;
