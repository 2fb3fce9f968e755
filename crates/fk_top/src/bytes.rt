//! The outcome of a command for the bytes of an image.

ghost use Rattle.std.specs.Prelude.{◌≡◌, ◌⊎◌, ◌≤◌, length, IfOk};
ghost use Rattle.fk_num.specs.Limits.{most_code_words};
ghost use Rattle.fk_top.specs.Outcome.{ListsImage, RefusesImage, RunsImage, listing};
ghost use Rattle.fk_top.specs.Ending.{outcome_of};

use crate::ending::{Ending, LastLine, Told, refused};
use crate::machine_run::RunText;
use crate::refused::image_report_of;
use crate::report::Report;
use crate::run::run_ending;
use crate::status::Status;
use fk_asm::listing::listing_line;
use fk_image::read_image;
use fk_top_words::RunWords;
use std::alloc::{AllocError, Global};

/// Reads an image, to be run on an input text. Fails if there isn't enough memory.
pub fn run_bytes<'a>(
    alloc: Global,
    bytes: &[u8],
    text: &[u8],
    run: RunWords,
) -> Result<Ending<'a>, AllocError>
    ensures { IfOk result (λ e. RefusesImage bytes.now (outcome_of e)
        ⊎ RunsImage bytes.now text.now run.harts run.cycles (outcome_of e)) }
{
    match read_image(alloc, bytes) {
        Ok(image) => run_ending(alloc, image, text, run, RunText::Output(None)),
        Err(fault) => refused(alloc, Status::ImageRefused, image_report_of(fault)),
    }
}

/// Reads an image and lists its code. Fails if there isn't enough memory.
pub fn list_bytes<'a>(alloc: Global, bytes: &[u8]) -> Result<Ending<'a>, AllocError>
    ensures { IfOk result
        (λ e. RefusesImage bytes.now (outcome_of e) ⊎ ListsImage bytes.now (outcome_of e)) }
{
    match read_image(alloc, bytes) {
        Ok(image) => Ok(Ending::Told(Told {
            status: Status::Done,
            put: None,
            output: list_code(alloc, &image.code)?,
            line: LastLine::Reported(Report::Listed(image.code.len() as u32)),
        })),
        Err(fault) => refused(alloc, Status::ImageRefused, image_report_of(fault)),
    }
}

/// The length of the longest line of a listing.
const LINE_SIZE: usize = 68;

// The lines of code, one for each word.
fn list_code(alloc: Global, code: &[u32]) -> Result<Vec<u8>, AllocError>
    requires { length code.now ≤ most_code_words }
    ensures { IfOk result (λ lines. lines.items ≡ listing 0 code.now) }
{
    let mut lines = Vec::with_capacity(alloc, LINE_SIZE * code.len())?;
    let mut address = 0;
    for word in code {
        lines.extend_from_slice(listing_line(address, *word).as_slice())?;
        address += 4;
    }
    Ok(lines)
}
