//! Faults of syntax.

ghost use Rattle.std.specs.Prelude.{◌≡◌};

use fk_syntax::Place;
use std::alloc::{AllocError, AllocFailed};
use thiserror::Error;

/// Why tokens can't be read.
#[derive(Debug, Drop, Error)]
pub enum SyntaxFault {
    /// No text of the grammar goes on with this token.
    #[error("Unexpected")]
    Unexpected(Place),
    /// The tokens end, and the text isn't complete.
    #[error("EndOfText")]
    EndOfText,
    /// This token opens one level of nesting more than may be open.
    #[error("Nesting")]
    Nesting(Place),
    /// There isn't enough memory for the tree.
    #[error("Memory")]
    Memory(AllocError),
}

impl From<AllocError> for SyntaxFault {
    ghost use Rattle.fk_parse_combinators.specs.Faults.{IsMemory};

    ghost from_gives = { λ _ fault. IsMemory fault };

    fn from(error: AllocError) -> SyntaxFault {
        SyntaxFault::Memory(error)
    }
}

impl<T: Drop> From<AllocFailed<T>> for SyntaxFault {
    ghost use Rattle.fk_parse_combinators.specs.Faults.{IsMemory};

    ghost from_gives = { λ _ fault. IsMemory fault };

    fn from(_refused: AllocFailed<T>) -> SyntaxFault {
        SyntaxFault::Memory(AllocError)
    }
}
