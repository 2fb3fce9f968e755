//! Why bytes are no file of an image.

use std::alloc::AllocError;
use thiserror::Error;

/// The reason why bytes are no file of an image: the first of these that applies. The order is
/// `ElfShort` of the headers, `ElfHeader`, `ElfShort` of what the headers ask for, `ElfTail`,
/// `ElfSizes`, `ElfTable`.
#[derive(Debug, Drop, Error)]
pub enum ElfFault {
    /// This byte is the first that differs from the headers which the file's own sizes demand, or
    /// the first of a size that is out of range.
    #[error("byte {0} is not that of the headers of an image's file")]
    ElfHeader(u32),
    /// There are this many bytes, fewer than needed. The second number is 148, the size of the
    /// headers, or the size for which the headers ask.
    #[error("there are {0} bytes of {1}")]
    ElfShort(u64, u64),
    /// There are more bytes than the headers ask for. The number is that for which they ask.
    #[error("bytes follow the {0} of the file")]
    ElfTail(u64),
    /// There are more sites or commits than an image may have, or their part of the file has
    /// another size.
    #[error("the numbers of sites and commits don't fit their part of the file")]
    ElfSizes,
    /// This entry of the tables is past its limits. Sites are counted from 0, and commits after
    /// them.
    #[error("entry {0} of the tables is past its limits")]
    ElfTable(u32),
    /// There isn't enough memory, which says nothing about the bytes.
    #[error(transparent)]
    Memory(AllocError),
}
