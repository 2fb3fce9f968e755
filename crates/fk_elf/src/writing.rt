//! Writing a file.

ghost use Rattle.std.specs.Prelude.{◌≡◌, ◌*◌, vec_len, IfOk};
ghost use Rattle.fk_image.specs.Limits.{IsWithinLimits};
ghost use Rattle.fk_elf.specs.Files.{IsElfOf, entry_bytes};

use crate::header::{HEADER_SIZE, Sizes};
use fk_image::{Image, write_image};
use std::alloc::{AllocError, Global};

/// The file of an image, which `read_elf` reads back. It takes time linear in the image, and fails
/// only if there isn't enough memory.
pub fn write_elf(alloc: Global, image: &Image) -> Result<Vec<u8>, AllocError>
    requires { IsWithinLimits image.now }
    ensures { IfOk result (λ bytes. IsElfOf bytes.items image.now) }
{
    let sizes = sizes_of(image);
    let written = write_image(alloc, image)?;
    let (front, rest) = written.split_at(24);
    let (_, counts) = front.split_at(16);
    let (contents, entries) = rest.split_at(sizes.code as usize + sizes.globals as usize);
    let mut bytes = Vec::with_capacity(alloc, HEADER_SIZE + 8 + rest.len())?;
    bytes.extend_from_slice(&sizes.header())?;
    bytes.extend_from_slice(contents)?;
    bytes.extend_from_slice(counts)?;
    bytes.extend_from_slice(entries)?;
    Ok(bytes)
}

/// The sizes of the parts of an image's file.
fn sizes_of(image: &Image) -> Sizes
    requires { IsWithinLimits image.now }
    ensures code { result.code ≡ 4 * vec_len image.now.code }
    ensures globals { result.globals ≡ 4 * vec_len image.now.globals }
    ensures entries { result.entries ≡ entry_bytes image.now }
{
    Sizes {
        code: 4 * image.code.len() as u32,
        globals: 4 * image.globals.len() as u32,
        entries: 8 + 12 * image.sites.len() as u32 + 8 * image.commits.len() as u32,
    }
}
