//! The outcome of a command that makes an image's ELF file, or an image of such a file.

ghost use Rattle.std.specs.Prelude.{◌≡◌, ◌⊎◌, ◌≤◌, length, IfOk};
ghost use Rattle.fk_top.specs.Outcome.{PutsElf, PutsFromElf, RefusesElf, RefusesImage, wrote};
ghost use Rattle.fk_top.specs.Ending.{outcome_of};

use crate::ending::{Ending, LastLine, PutFile, Told, refused};
use crate::refused::{elf_report_of, image_report_of};
use crate::report::Report;
use crate::status::Status;
use fk_elf::{read_elf, write_elf};
use fk_image::{read_image, write_image};
use std::alloc::{AllocError, Global};

/// Reads an image and makes its ELF file. Fails if there isn't enough memory.
pub fn put_elf<'a>(alloc: Global, bytes: &[u8], name: &'a str) -> Result<Ending<'a>, AllocError>
    ensures { IfOk result (λ e. RefusesImage bytes.now (outcome_of e)
        ⊎ PutsElf bytes.now name.now (outcome_of e)) }
{
    match read_image(alloc, bytes) {
        Ok(image) => {
            let file = write_elf(alloc, &image)?;
            Ok(putting(alloc, name, file))
        }
        Err(fault) => refused(alloc, Status::ImageRefused, image_report_of(fault)),
    }
}

/// Reads the ELF file of an image and makes the bytes of the image. Fails if there isn't enough
/// memory.
pub fn put_image<'a>(alloc: Global, file: &[u8], name: &'a str) -> Result<Ending<'a>, AllocError>
    ensures { IfOk result (λ e. RefusesElf file.now (outcome_of e)
        ⊎ PutsFromElf file.now name.now (outcome_of e)) }
{
    match read_elf(alloc, file) {
        Ok(image) => {
            let bytes = write_image(alloc, &image)?;
            Ok(putting(alloc, name, bytes))
        }
        Err(fault) => refused(alloc, Status::ElfRefused, elf_report_of(fault)),
    }
}

// The ending where these bytes are put under a name.
fn putting<'a>(alloc: Global, name: &'a str, bytes: Vec<u8>) -> Ending<'a>
    requires { length bytes.items ≤ 5435036 }
    ensures { outcome_of result ≡ wrote name.now bytes.items }
{
    let line = LastLine::Reported(Report::Wrote(bytes.len() as u32));
    Ending::Told(Told {
        status: Status::Done,
        put: Some(PutFile { name, bytes }),
        output: Vec::new(alloc),
        line,
    })
}
