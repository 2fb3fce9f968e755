//! The types of the expressions of Fork95, and the rules that expressions break.
#![tactic(auto)]

pub mod laws;
