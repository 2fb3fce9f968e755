//! The law of stopped rounds, told without the whole rounds from which they are cut.
//!
//! The definitions are in `fk_replay_rounds`, and what is proved of them is in `laws`.
#![tactic(auto)]

pub mod laws;
