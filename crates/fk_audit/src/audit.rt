//! The audit of a run.

ghost use Rattle.std.specs.Prelude.{◌≡◌};
ghost use Rattle.fk_machine.specs.Run.{after};
ghost use Rattle.fk_machine.specs.View.{machine_of};
ghost use Rattle.fk_audit.specs.declared.access.AccessKind.TheVariants as kind;
ghost use Rattle.fk_audit.specs.Clash.{IsFirstOf};
ghost use Rattle.fk_audit.specs.Mark.{AreUpTo};

use crate::marks::Marks;
use crate::verdict::{Verdict, first_of};
use fk_machine::{Machine, Stand};

/// Runs at most `bound` cycles of a machine that has run none, or fewer if it ends before. Gives
/// its status after them, and the first clash of each kind. It takes no memory.
pub fn run_audit(machine: &mut Machine, bound: u32, mut marks: Marks) -> (Stand, Verdict)
    requires unbegun { (machine_of machine.old).begun ≡ 0 }
    requires unmarked { AreUpTo 0 marks }
    ensures machine { machine_of machine.new ≡ after bound (machine_of machine.old) }
    ensures stand { result.0 ≡ (machine_of machine.new).stand }
    ensures read { IsFirstOf kind.Read (machine_of machine.old) bound result.1.read }
    ensures write { IsFirstOf kind.Write (machine_of machine.old) bound result.1.write }
{
    let mut verdict = Verdict {
        read: None,
        write: None,
    };
    for done in 0..bound {
        if machine.stand() != Stand::Running {
            return (machine.stand(), verdict);
        }
        let least = marks.run_cycle(machine);
        verdict = Verdict {
            read: first_of(verdict.read, done + 1, least.read),
            write: first_of(verdict.write, done + 1, least.write),
        };
    }
    (machine.stand(), verdict)
}
