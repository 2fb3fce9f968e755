//! From the text of a program to its flat list.
//!
//! The code of each function is shown step by step, recorded, and built into a block in memory.
//! Then the blocks, each at its function's binding, are lowered.
#![tactic(auto)]

mod bodies;
mod count;
mod depths;
mod height;
mod main_entry;
mod noting;
mod text;

pub use main_entry::entry_of_main;
pub use text::lower_text;
