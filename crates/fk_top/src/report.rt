//! The report: the last line that a call writes, to standard error.

ghost use Rattle.std.specs.Prelude.{◌≡◌, ◌≤◌, ◌+◌, ◌++◌, codes};
ghost use Rattle.std.specs.Fmt.{decimal};
ghost use Rattle.arrayvec.specs.ArrayVec.{array_vec_len};
ghost use Rattle.fk_top.specs.declared.report.Report.TheVariants as reports;
ghost use Rattle.fk_top.specs.Report.{line_of, text_of};

use crate::kinds::{FaultKind, TrapKind};
use crate::line::{Line, append, append_number, append_place, counted, plain};
use crate::reason::Reason;
use fk_asm::listing::eight_digits;
use fk_syntax::Place;

/// What a call reports.
#[derive(Clone, Copy, PartialEq, Eq, Debug)]
pub enum Report {
    /// All harts ended, after this many cycles.
    Finished(u32),
    /// An image with this many words of code was put.
    Built(u32),
    /// This many words of code were listed.
    Listed(u32),
    /// A file of this many bytes was put.
    Wrote(u32),
    /// The program faulted: the kind and the place of its operation's fault, the processor, and the
    /// number of cycles.
    Fault {
        kind: FaultKind,
        place: Place,
        processor: u32,
        cycles: u32,
    },
    /// The bound was reached, which is this many cycles.
    Stopped(u32),
    /// The machine trapped: the kind of the trap, the pc, the hart, and the number of cycles.
    Trap {
        kind: TrapKind,
        pc: u32,
        hart: u32,
        cycles: u32,
    },
    /// A file or an input text is refused.
    Refused(Reason),
    /// The words are no command.
    CommandLine,
    /// The file could not be read.
    ReadFault,
}

impl Report {
    /// The line of the report, with its newline.
    pub fn line(&self) -> Line
        ensures { result.items ≡ line_of self.now }
    {
        let mut line = self.text();
        append(&mut line, b"\n");
        line
    }

    // The line of the report without its newline.
    fn text(&self) -> Line
        ensures text { result.items ≡ text_of self.now }
        ensures short { array_vec_len result ≤ 159 }
    {
        match *self {
            Report::Finished(cycles) => counted(b"finished after ", cycles, b" cycles"),
            Report::Built(words) => counted(b"built ", words, b" words"),
            Report::Listed(words) => counted(b"listed ", words, b" words"),
            Report::Wrote(bytes) => counted(b"wrote ", bytes, b" bytes"),
            Report::Fault {
                kind,
                place,
                processor,
                cycles,
            } => fault_text(kind, place, processor, cycles),
            Report::Stopped(cycles) => counted(b"stopped after ", cycles, b" cycles"),
            Report::Trap {
                kind,
                pc,
                hart,
                cycles,
            } => trap_text(kind, pc, hart, cycles),
            Report::Refused(reason) => reason.text(),
            Report::CommandLine => plain(b"refused command line"),
            Report::ReadFault => plain(b"read fault"),
        }
    }
}

// The text of a fault.
fn fault_text(kind: FaultKind, place: Place, processor: u32, cycles: u32) -> Line
    ensures text { result.items ≡ text_of (reports.Fault kind place processor cycles) }
    ensures short { array_vec_len result ≤ 159 }
{
    let mut line = plain(b"fault ");
    append(&mut line, kind.name());
    append(&mut line, b" at ");
    append_place(&mut line, place);
    append(&mut line, b" by processor ");
    append_number(&mut line, u64::from(processor));
    append_cycles(&mut line, cycles);
    line
}

// The text of a trap.
fn trap_text(kind: TrapKind, pc: u32, hart: u32, cycles: u32) -> Line
    ensures text { result.items ≡ text_of (reports.Trap kind pc hart cycles) }
    ensures short { array_vec_len result ≤ 159 }
{
    let mut line = plain(b"trap ");
    append(&mut line, kind.name());
    append(&mut line, b" at 0x");
    append(&mut line, &eight_digits(pc));
    append(&mut line, b" by hart ");
    append_number(&mut line, u64::from(hart));
    append_cycles(&mut line, cycles);
    line
}

// Appends the number of cycles.
fn append_cycles(line: &mut Line, cycles: u32)
    requires room { array_vec_len line.old + 34 ≤ 159 }
    ensures items { line.new.items ≡ line.old.items ++ codes " after " ++ decimal cycles
        ++ codes " cycles" }
    ensures len { array_vec_len line.new ≤ array_vec_len line.old + 34 }
{
    append(line, b" after ");
    append_number(line, u64::from(cycles));
    append(line, b" cycles");
}
