//! The global heap as harts keep it: a control word that all share counts the words asked for, and
//! each hart notes when it has found the heap full.
//!
//! The definitions are in `specs/`, and the laws proved of them in `laws`.
#![tactic(auto)]

pub mod laws;
