//! The state of a run in memory, and the state before its first round.
#![tactic(auto)]

mod beginning;
mod processor;
mod setting;
mod state;

pub use beginning::opening;
pub use processor::{Call, Level, Processor};
pub use setting::Setting;
pub use state::State;
