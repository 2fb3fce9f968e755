//! The marks of a run that is audited.

ghost use Rattle.std.specs.Prelude.{◌≡◌, ℕ, ◌≤◌, ◌^◌, IfOk, slice_index, vec_len, vec_capacity};

use crate::marking::{LeastWords, least_words};
use crate::touch::{Touch, collect};
use fk_machine::Machine;
use fk_machine::place::SHARED_WORDS;
use std::alloc::{AllocError, Global};

/// The most touches of a cycle: one for each hart.
const MOST_TOUCHES: usize = 1024;

/// The cycles in which the words of shared data were touched, and the touches of a cycle. They take
/// 8 MiB, so that a run that is audited takes no memory.
#[derive(Drop)]
pub struct Marks {
    /// The last cycle in which each word was read, counted from 1; 0 if there was none.
    read: Vec<u32>,
    /// The last cycle in which each word was written.
    written: Vec<u32>,
    /// What the harts touch in a cycle.
    touches: Vec<Touch>,
    ghost read_sized: { vec_len read ≡ 2 ^ 20 },
    ghost written_sized: { vec_len written ≡ 2 ^ 20 },
    ghost room: { 1024 ≤ vec_capacity touches },
}

impl Marks {
    ghost use Rattle.std.specs.Prelude.{◌-◌, ◌<◌, true};
    ghost use Rattle.fk_machine.specs.Cycle.{cycle, is_running};
    ghost use Rattle.fk_machine.specs.View.{machine_of};
    ghost use Rattle.fk_audit.specs.declared.access.AccessKind.TheVariants as kind;
    ghost use Rattle.fk_audit.specs.Clash.{Clashes};
    ghost use Rattle.fk_audit.specs.Mark.{AreUpTo, IsLeast};

    /// Marks before the first cycle. Fails if there isn't enough memory.
    pub fn new(alloc: Global) -> Result<Marks, AllocError>
        ensures { IfOk result (AreUpTo 0) }
    {
        Ok(Marks {
            read: unmarked(alloc, SHARED_WORDS as usize)?,
            written: unmarked(alloc, SHARED_WORDS as usize)?,
            touches: Vec::with_capacity(alloc, MOST_TOUCHES)?,
        })
    }

    /// Runs a cycle of a machine that runs, and gives the least words that clash in it.
    pub(crate) fn run_cycle(&mut self, machine: &mut Machine) -> LeastWords
        requires running { is_running (machine_of machine.old).stand ≡ true }
        requires count { (machine_of machine.old).begun < 2 ^ 32 - 1 }
        requires marks { AreUpTo (machine_of machine.old).begun self.old }
        ensures machine { machine_of machine.new ≡ cycle (machine_of machine.old) }
        ensures marks { AreUpTo (machine_of machine.new).begun self.new }
        ensures read { IsLeast (Clashes kind.Read (machine_of machine.old)) result.read }
        ensures write { IsLeast (Clashes kind.Write (machine_of machine.old)) result.write }
    {
        collect(machine, &mut self.touches);
        let stand = machine.cycle();
        least_words(
            self.touches.as_slice(),
            stand,
            machine.cycles(),
            self.read.as_mut_slice(),
            self.written.as_mut_slice(),
        )
    }
}

// Marks of words that were never touched. The clauses don't name the list, because it would be
// computed where the number is known.
fn unmarked(alloc: Global, words: usize) -> Result<Vec<u32>, AllocError>
    ensures len { IfOk result (λ marks. vec_len marks ≡ words) }
    ensures zero { IfOk result (λ marks. (word : ℕ) → slice_index marks.items word ≡ 0) }
{
    vec![in alloc; 0; words]
}
