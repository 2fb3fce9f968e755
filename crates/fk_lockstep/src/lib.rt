//! The invariants of groups in lockstep, from round to round and over whole runs: their members
//! have one remaining program, and levels that differ in `$` alone.
//!
//! The definitions are in `specs/`, and what is proved of them is in `laws`.
#![tactic(auto)]

pub mod laws;
