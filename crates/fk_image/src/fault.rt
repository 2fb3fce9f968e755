//! Why bytes are no image.

use std::alloc::AllocError;
use thiserror::Error;

/// The reason why bytes are no image: the first of these that applies. The order is `Short` of a
/// header, `Magic`, `Version`, `BadWord`, `Short` of what the header asks for, `LongTail`,
/// `BadTable`.
#[derive(Debug, Drop, Error)]
pub enum ImageFault {
    /// The first word isn't the bytes `FK95`.
    #[error("the bytes don't begin with FK95")]
    Magic,
    /// The version, in word 1, isn't 1.
    #[error("version {0} is not known")]
    Version(u32),
    /// There are this many bytes, fewer than needed. The second number is 24, the size of a header,
    /// or the size for which the header asks.
    #[error("there are {0} bytes of {1}")]
    Short(u64, u64),
    /// There are more bytes than the header asks for. The number is that for which it asks.
    #[error("bytes follow the {0} of the image")]
    LongTail(u64),
    /// This entry of the tables is past the limits. Sites are counted from 0, and
    /// commits after them.
    #[error("entry {0} of the tables is past its limits")]
    BadTable(u32),
    /// This word of the header, from 2 to 5, is past its limits.
    #[error("word {0} of the header is past its limits")]
    BadWord(u32),
    /// There isn't enough memory, which says nothing about the bytes.
    #[error(transparent)]
    Memory(AllocError),
}
