//! The reasons why words are not read.

ghost use Rattle.std.specs.Prelude.{◌≡◌, ◌↔◌};

use std::alloc::AllocError;
use thiserror::Error;

/// The reason why words are not read.
#[derive(Clone, Copy, Debug, PartialEq, Eq, Error)]
pub enum WordsFault {
    /// The words are no command.
    #[error("no command")]
    Usage,
    /// There isn't enough memory, which says nothing about the words.
    #[error("out of memory")]
    Memory,
}

impl From<AllocError> for WordsFault {
    ghost use Rattle.fk_top_words.specs.declared.fault.WordsFault.TheVariants.{Memory};

    ghost from_gives = { λ _ fault. fault ≡ Memory };

    fn from(_refused: AllocError) -> WordsFault {
        WordsFault::Memory
    }
}
