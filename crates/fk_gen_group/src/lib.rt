//! The blocks of groups: how members meet, agree, go into bodies and out of them, and split.
#![tactic(auto)]

mod blocks;
pub mod laws;
mod parts;
mod splits;
mod start;

pub use blocks::GroupBlocks;
pub use parts::{
    FORK_LABEL, ONE_PART_LABEL, TWO_PARTS_LABEL, emit_fork, emit_one_part, emit_two_parts,
};
pub use start::{START_LABEL, emit_start};
