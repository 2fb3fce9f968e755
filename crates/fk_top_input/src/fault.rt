//! The reasons why an input text is refused.

ghost use Rattle.std.specs.Prelude.{◌≡◌};

use std::alloc::AllocFailed;
use thiserror::Error;

/// The reason why an input text is refused: its first word at fault, counted from 1.
#[derive(Clone, Copy, Debug, PartialEq, Eq, Error)]
pub enum InputFault {
    /// This word isn't one or more decimal digits, with or without a `-` before them.
    #[error("word {0} is not a number")]
    NotANumber(u32),
    /// This word is a number below -2^31 or above 2^32 - 1.
    #[error("word {0} is out of range")]
    OutOfRange(u32),
    /// This word is one more than there may be, whatever it is. As 0: the text has more than
    /// 1,048,576 bytes.
    #[error("word {0} is one too many")]
    TooMany(u32),
    /// There isn't enough memory, which says nothing about the text.
    #[error("out of memory")]
    Memory,
}

/// The fault where `push` has no memory.
pub(crate) fn out_of_memory<T: Drop>(_refused: AllocFailed<T>) -> InputFault
    ensures { result ≡ InputFault.Memory }
{
    InputFault::Memory
}
