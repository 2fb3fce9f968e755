//! Flat lists of operations, and their runs.
//!
//! A program becomes one list: the code of its functions, with jumps and targets in place of
//! choices, loops and calls. What a processor has left to do is an index into the list.
#![tactic(auto)]

pub mod laws;
mod numbers;
mod op;
mod program;

pub use op::CoreOp;
pub use program::CoreProgram;
