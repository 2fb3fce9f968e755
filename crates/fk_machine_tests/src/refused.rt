//! Bytes that are refused.

use std::alloc::{AllocError, Global};
use std::fmt;

/// Bytes that are refused: the first `length` bytes of `of`, with zeros after them if that is more,
/// and with one byte replaced. `why` is the reason of the refusal.
pub struct Refused {
    pub of: &'static [u8],
    pub length: usize,
    pub at: usize,
    pub byte: u8,
    pub why: &'static str,
}

impl Refused {
    /// The bytes. Fails if there isn't enough memory.
    pub fn bytes(&self, alloc: Global) -> Result<Vec<u8>, AllocError> {
        let mut bytes = Vec::from_slice(alloc, self.of)?;
        bytes.resize(self.length, 0)?;
        if self.at < bytes.len() {
            bytes[self.at] = self.byte;
        }
        Ok(bytes)
    }

    /// Whether this is the reason by its text. Fails if there isn't enough memory.
    pub fn is_reason<E: fmt::Display>(&self, alloc: Global, fault: &E) -> Result<bool, AllocError> {
        let text = format!(in alloc; "{fault}")?;
        Ok(text.as_str() == self.why)
    }
}
