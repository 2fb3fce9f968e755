//! The blocks of accesses: of `malloc` and `shmalloc`, of checks of addresses, of reads, writes and
//! multiprefixes, and of prints.
#![tactic(auto)]

mod blocks;
mod heap;
pub mod laws;

pub use blocks::AccessBlocks;
pub use heap::{HEAP_LABEL, emit_heap};
