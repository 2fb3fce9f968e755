//! Harts.

ghost use Rattle.std.specs.Prelude.{◌≡◌, ℕ, None, vec_len, map, replicate, IfOk};
ghost use Rattle.fk_num.specs.Word.{Memory};
ghost use Rattle.fk_machine.specs.Cycle.{first_hart};
ghost use Rattle.fk_machine.specs.View.{address_of, harts_of, ran_of, unserved};

use fk_isa::Hart;
use std::alloc::{AllocError, Global};

/// A hart, with the address that it ran in the last cycle.
#[derive(Clone, Copy)]
pub struct TrackedHart {
    pub state: Hart,
    /// None if the hart was not served in the last cycle.
    pub ran: Option<u32>,
}

impl TrackedHart {
    /// Notes which address the hart runs in this cycle: none if it has ended.
    #[inline(always)]
    pub fn begin(&mut self)
        ensures { self.new ≡ record self.old { ran = address_of self.old.state } }
    {
        self.ran = if self.state.ended {
            None
        } else {
            Some(self.state.pc)
        };
    }
}

/// Notes that these harts are not served in this cycle.
#[cold]
#[inline(never)]
pub fn pass_over(harts: &mut [TrackedHart])
    ensures { harts.new ≡ map unserved harts.old }
{
    for hart in harts.iter_mut() {
        hart.ran = None;
    }
}

/// Makes `count` harts before their first instruction.
///
/// # Errors
///
/// `AllocError` if there isn't enough memory.
pub fn first_harts(alloc: Global, count: u32) -> Result<Vec<TrackedHart>, AllocError>
    ensures len { IfOk result (λ hs. vec_len hs ≡ count) }
    ensures harts { (local : ℕ → Memory) → ((k : ℕ) → local k ≡ λ i. 0) →
        IfOk result (λ hs. harts_of 0 hs.items local ≡ replicate count first_hart) }
    ensures ran { IfOk result (λ hs. ran_of hs.items ≡ replicate count None) }
{
    let mut harts = Vec::with_capacity(alloc, count as usize)?;
    for _ in 0..count {
        harts.push(TrackedHart {
            state: Hart {
                registers: [0; 32],
                pc: 0,
                ended: false,
            },
            ran: None,
        })?;
    }
    Ok(harts)
}
