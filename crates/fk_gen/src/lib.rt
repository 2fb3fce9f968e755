//! What the blocks of operations share: the lines that they are made of, their places in an image,
//! and how a hart runs them.
#![tactic(auto)]

pub mod block_line;
pub mod numbers;
mod operands;
mod placed;
pub mod registers;

pub use block_line::{BlockLine, emit_lines, emit_number, emit_sum};
pub use operands::{operand, result};
pub use placed::{Levels, Placed};
