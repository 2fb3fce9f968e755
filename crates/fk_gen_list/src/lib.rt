//! The code of a flat list: the opening, the code that all calls, all beginnings of `start`, all
//! blocks of `shmalloc` and all splits share, and the block of each operation; and that it has the
//! law of blocks of groups.
//!
//! The definitions are in `specs/`, and the laws proved of them in `laws`.
#![tactic(auto)]

mod all_blocks;
mod assemble;
mod code;
mod copying;
mod hiring;
mod kind;
pub mod laws;
mod list;
mod placing;
mod splitting;
mod starting;

pub use list::generate;
