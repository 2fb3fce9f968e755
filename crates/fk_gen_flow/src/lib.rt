//! The blocks of control flow: jumps, branches, calls, ends of calls and halts; the code that all
//! calls share; and the opening of an image.
#![tactic(auto)]

mod blocks;
mod calls;
pub mod laws;
mod opening;
pub mod registers;

pub use blocks::FlowBlocks;
pub use calls::{emit_back, emit_clear, emit_copy};
pub use opening::emit_opening;
