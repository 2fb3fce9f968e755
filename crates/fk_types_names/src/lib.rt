//! The names of a program: what declares them, where each is visible, and what each denotes.
#![tactic(auto)]

pub mod laws;
mod names;
mod outline;
mod reader;
mod scoped;
mod survey;
mod table;

pub use names::{Meaning, Names, is_predeclared, resolve};
pub use outline::{Declaration, Mark};
pub use scoped::ScopedMarks;
pub use table::Table;
