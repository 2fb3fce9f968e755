//! Code, and the reasons why lines have none.

use std::alloc::AllocError;
use thiserror::Error;

/// The words of the code, from address 0 on, and its commit table.
#[derive(Drop)]
pub struct Code {
    pub words: Vec<u32>,
    /// The address of each word that commits, and its count + 256 * its event. Addresses rise.
    pub commits: Vec<(u32, u32)>,
}

/// The reason why lines have no code.
#[derive(Clone, Copy, PartialEq, Eq, Debug, Error)]
pub enum AsmFault {
    /// The index of the first jump whose format can't hold its distance, and the distance in bytes.
    #[error("the jump at word {0} can't go {1} bytes")]
    TooFar(u32, i64),
    #[error("out of memory")]
    Memory(AllocError),
}
