//! The reasons why a trace is refused.

ghost use Rattle.std.specs.Prelude.{◌≡◌};
ghost use Rattle.fk_replay_text.specs.declared.fault.ReplayFault.TheVariants.{Memory};

use std::alloc::AllocError;
use thiserror::Error;

/// The reason why a trace is refused.
#[derive(Clone, Copy, Debug, PartialEq, Eq, Error)]
pub enum ReplayFault {
    /// No trace text goes on with this line, counted from 1.
    #[error("line {0} is not a line of a trace")]
    BadTrace(u64),
    /// This round is not possible.
    #[error("round {0} is not possible")]
    NotPossible(u32),
    /// In the 256 rounds up to this one this processor could act, and is in none of them.
    #[error("round {0} passes processor {1} over")]
    Pace(u32, u32),
    /// There isn't enough memory, which says nothing about the trace.
    #[error("out of memory")]
    Memory,
}

impl From<AllocError> for ReplayFault {
    ghost from_gives = { λ _ fault. fault ≡ Memory };

    fn from(_error: AllocError) -> Self {
        ReplayFault::Memory
    }
}
