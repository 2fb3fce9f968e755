//! The reasons why a call to the outside fails.
ghost use Rattle.std.specs.Prelude.{◌≡◌};
ghost use Rattle.fk_ports.specs.declared.faults.StoreFault.TheVariants.{Fault, Memory};

use std::alloc::AllocError;
use std::io;
use thiserror::Error;

/// A source or a sink failed. It has counted this fault.
#[derive(Clone, Copy, PartialEq, Eq, Debug, Error)]
#[error("the other side failed")]
pub struct Failed;

/// The reason why a call of a store, or the reading of all of a source, failed.
#[derive(Clone, Copy, PartialEq, Eq, Debug, Error)]
pub enum StoreFault {
    /// The other side failed.
    #[error("the other side failed")]
    Fault,
    #[error("out of memory")]
    Memory,
}

impl From<Failed> for StoreFault {
    ghost from_gives = { λ _ fault. fault ≡ Fault };

    fn from(_failed: Failed) -> Self {
        StoreFault::Fault
    }
}

impl From<io::Error> for StoreFault {
    ghost from_gives = { λ _ fault. fault ≡ Fault };

    /// Each error of the system is a fault of the other side, of whatever kind: that there is no
    /// such file, or that it can't be read or written.
    fn from(_error: io::Error) -> Self {
        StoreFault::Fault
    }
}

impl From<AllocError> for StoreFault {
    ghost from_gives = { λ _ fault. fault ≡ Memory };

    fn from(_error: AllocError) -> Self {
        StoreFault::Memory
    }
}
