//! The words of a command line, and the command that they are.
#![tactic(auto)]

mod asked;
mod command;
mod commands;
mod fault;
pub mod laws;
mod reading;

pub use command::{CommandWords, RunWords};
pub use fault::WordsFault;
pub use reading::read_words;
