//! The number of operations of a text.

ghost use Rattle.std.specs.Prelude.{◌≡◌, ◌-◌, ◌^◌, ◌<◌, ◌≤◌, IfOk, IfErr, length, min};
ghost use Rattle.fk_layout_walk.specs.Known.{IsSound};
ghost use Rattle.fk_layout_walk_statements.specs.Texts.{sites_of_text};

use fk_layout_walk::{ProgramTables, Tally};
use fk_layout_walk_statements::text;
use fk_syntax::Place;
use std::alloc::AllocError;

/// Why a text has no layout.
#[derive(Clone, Copy, PartialEq, Eq, Debug)]
pub enum LayoutFault {
    /// It has this number of operations, which is more than an image can name; at most 2^64 - 1 is
    /// reported.
    TooManySites(u64),
    /// The private frame of the function whose name is at this place has this number of words,
    /// which is more than a frame may have; at most 2^32 - 1 is reported.
    FrameTooLarge(Place, u32),
    /// Its shared variables of file scope have this number of words, which is more than an image
    /// can have; at most 2^64 - 1 is reported.
    GlobalsTooLarge(u64),
    /// There isn't enough memory for the layout.
    Memory,
}

/// The greatest number of operations that an image can name.
pub const MOST_SITES: u64 = 16_000;

// The fault that there isn't enough memory.
pub(crate) fn out_of_memory(_refused: AllocError) -> LayoutFault
    ensures { result ≡ LayoutFault.Memory }
{
    LayoutFault::Memory
}

/// The number of operations of a text; at most 2^64 - 1. It takes no memory, and time linear in the
/// text.
pub fn count_sites(known: &ProgramTables) -> u64
    requires { IsSound known.now }
    ensures { result ≡ min (length (sites_of_text known.now)) (2 ^ 64 - 1) }
{
    let mut tally = Tally { count: 0 };
    text(known, &mut tally);
    tally.count
}

/// The number of operations of a text if an image can name them all, else the fault `TooManySites`.
pub fn fitting_sites(known: &ProgramTables) -> Result<u32, LayoutFault>
    requires { IsSound known.now }
    ensures fits { IfOk result (λ count. count ≡ length (sites_of_text known.now)) }
    ensures few { IfOk result (λ count. count ≤ 16000) }
    ensures told { IfErr result (λ fault. fault
        ≡ LayoutFault.TooManySites (min (length (sites_of_text known.now)) (2 ^ 64 - 1))) }
    ensures many { IfErr result (λ fault. 16000 < length (sites_of_text known.now)) }
{
    let count = count_sites(known);
    if count > MOST_SITES {
        Err(LayoutFault::TooManySites(count))
    } else {
        Ok(count as u32)
    }
}
