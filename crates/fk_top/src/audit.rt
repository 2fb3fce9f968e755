//! The audit of a run.

ghost use Rattle.std.specs.Prelude.{◌≡◌, ◌≤◌, ◌+◌, ◌++◌, length, vec_len, IfOk};
ghost use Rattle.arrayvec.specs.ArrayVec.{array_vec_len};
ghost use Rattle.fk_num.specs.Limits.{most_data_words};
ghost use Rattle.fk_image.specs.Limits.{IsWithinLimits};
ghost use Rattle.fk_machine.specs.Run.{machine};
ghost use Rattle.fk_top.specs.Ending.{outcome_of};
ghost use Rattle.fk_top.specs.Outcome.{EndsAudit, IsVerdict};
ghost use Rattle.fk_top.specs.Report.{clash_text, pram_name, verdict_text};

use crate::ending::{Ending, LastLine, Told, refused};
use crate::line::{Line, append, append_number};
use crate::refused::input_report_of;
use crate::run::most_numbers;
use crate::stand::{stand_report, status_of};
use crate::status::Status;
use arrayvec::ArrayVec;
use fk_asm::listing::eight_digits;
use fk_audit::{Clash, Marks, Verdict, run_audit};
use fk_image::Image;
use fk_machine::{Machine, Stand};
use fk_top_input::read_input;
use fk_top_words::RunWords;
use std::alloc::{AllocError, Global};

/// The result of a run that was audited.
#[derive(Clone, Copy)]
struct Audited {
    verdict: Verdict,
    /// The status of the machine.
    stand: Stand,
    /// The number of cycles that were begun.
    cycles: u32,
}

/// The most bytes of the lines of a verdict.
const VERDICT_BYTES: usize = 160;

/// The ending of the audit of an image on an input text. Fails if there isn't enough memory. All
/// memory is taken before the run.
pub fn audit_ending<'a>(
    alloc: Global,
    image: &Image,
    text: &[u8],
    run: RunWords,
) -> Result<Ending<'a>, AllocError>
    requires limits { IsWithinLimits image.now }
    ensures { IfOk result (λ e. EndsAudit image.now text.now run.harts run.cycles
        (outcome_of e)) }
{
    let limit = most_numbers(image.globals.len());
    let input = match read_input(alloc, text, limit) {
        Ok(numbers) => numbers,
        Err(fault) => return refused(alloc, Status::InputRefused, input_report_of(fault)),
    };
    let mut output = Vec::with_capacity(alloc, VERDICT_BYTES)?;
    let audited = audit_image(alloc, image, input.as_slice(), run.harts, run.cycles)?;
    let lines = verdict_text(audited.verdict);
    output.extend_from_slice(lines.as_slice()).unwrap();
    Ok(Ending::Told(Told {
        status: status_of(audited.stand),
        put: None,
        output,
        line: LastLine::Reported(stand_report(image, run.cycles, audited.stand, audited.cycles)),
    }))
}

// Runs an image on input numbers, with this many harts, until it ends or the bound on the cycles is
// reached, and audits the run.
fn audit_image(
    alloc: Global,
    image: &Image,
    input: &[u32],
    harts: u32,
    bound: u32,
) -> Result<Audited, AllocError>
    requires limits { IsWithinLimits image.now }
    requires some_harts { 1 ≤ harts }
    requires few_harts { harts ≤ 1024 }
    requires few_inputs { length input.now ≤ 65536 }
    requires room { vec_len image.now.globals + length input.now ≤ most_data_words }
    ensures verdict { IfOk result (λ a. IsVerdict image.now input.now harts bound a.verdict) }
    ensures stand { IfOk result (λ a. a.stand ≡ (machine image.now input.now harts bound).stand) }
    ensures cycles { IfOk result
        (λ a. a.cycles ≡ (machine image.now input.now harts bound).begun) }
{
    let mut machine = Machine::new(alloc, image, input, harts)?;
    let marks = Marks::new(alloc)?;
    let (stand, verdict) = run_audit(&mut machine, bound, marks);
    Ok(Audited {
        verdict,
        stand,
        cycles: machine.cycles(),
    })
}

// The name of the PRAM that a run needed.
fn pram_name(verdict: Verdict) -> &'static [u8]
    ensures name { result.now ≡ pram_name verdict.read verdict.write }
    ensures short { length result.now ≤ 4 }
{
    match (verdict.read, verdict.write) {
        (_, Some(_)) => b"CRCW",
        (Some(_), None) => b"CREW",
        (None, None) => b"EREW",
    }
}

// Appends where the first clash of a kind is, if there is one.
fn append_clash(line: &mut Line, clash: Option<Clash>)
    requires room { array_vec_len line.old + 40 ≤ 160 }
    ensures items { line.new.items ≡ line.old.items ++ clash_text clash }
    ensures len { array_vec_len line.new ≤ array_vec_len line.old + 40 }
{
    match clash {
        Some(clash) => {
            append(line, b" ");
            append_number(line, u64::from(clash.cycle));
            append(line, b" 0x");
            append(line, &eight_digits(clash.address));
        }
        None => append(line, b" none"),
    }
}

// The lines of a verdict.
fn verdict_text(verdict: Verdict) -> Line
    ensures { result.items ≡ verdict_text verdict }
{
    let mut lines = ArrayVec::new();
    append(&mut lines, b"verdict ");
    append(&mut lines, pram_name(verdict));
    append(&mut lines, b"\nread");
    append_clash(&mut lines, verdict.read);
    append(&mut lines, b"\nwrite");
    append_clash(&mut lines, verdict.write);
    append(&mut lines, b"\n");
    lines
}
