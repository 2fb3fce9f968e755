//! A run in memory: its state before the first round, and who could act.
#![tactic(auto)]

mod able;
mod run;

pub use run::Run;
