//! The text that the command `selftest` compiles and runs.
#![tactic(auto)]

mod text;

pub use text::generate;
