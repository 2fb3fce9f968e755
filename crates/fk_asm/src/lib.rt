//! The assembler: lines of code, their labels, and the commit table; and words of code as the lines
//! of a listing.
#![tactic(auto)]

mod assembler;
mod blocks;
mod code;
mod jump;
mod line;
pub mod listing;

pub use assembler::Assembler;
pub use blocks::Blocks;
pub use code::{AsmFault, Code};
pub use line::Line;
