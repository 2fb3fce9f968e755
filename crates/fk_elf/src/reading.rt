//! Reading a file.

ghost use Rattle.std.specs.Prelude.{◌≡◌, ℕ, ◌+◌, ◌*◌, ◌<◌, ◌≤◌, ◌↔◌, List, length, IfErr, IfOk};
ghost use Rattle.std.specs.Prelude.{IsTrue, OnOk};
ghost use Rattle.fk_image.specs.Refusals.{IsFault as IsImageFault, word_at};
ghost use Rattle.fk_elf.specs.Files.{IsElfOf, header_bytes};
ghost use Rattle.fk_elf.specs.Parts.{IsImageMemory, IsMemory, IsSizesOf, image_bytes};
ghost use Rattle.fk_elf.specs.Refusals.{HasHeader, HasLength, IsFault, IsHeaderByte, IsRefusedElf};

use crate::fault::ElfFault;
use crate::header::{HEADER_SIZE, Sizes};
use byteorder::{ByteOrder, LittleEndian};
use fk_image::{Image, ImageFault, read_image};
use std::alloc::{AllocError, Global};

/// The image whose file these bytes are, all of them. If they are the file of none, the fault is the
/// first that applies, in the order of [`ElfFault`]. It takes time linear in the bytes.
pub fn read_elf(alloc: Global, bytes: &[u8]) -> Result<Image, ElfFault>
    ensures image { IfOk result (λ image. IsElfOf bytes.now image) }
    ensures fault { IfErr result (λ fault. IsFault bytes.now fault) }
{
    let sizes = read_header(bytes)?;
    check_length(bytes, sizes)?;
    let parts = reordered(alloc, bytes, sizes).map_err(ElfFault::Memory)?;
    match read_image(alloc, &parts) {
        Ok(image) => Ok(image),
        Err(fault) => Err(elf_fault(fault)),
    }
}

/// The sizes that the headers have. Each byte of the headers is that which these sizes demand.
fn read_header(bytes: &[u8]) -> Result<Sizes, ElfFault>
    ensures header { OnOk result (HasHeader bytes.now) }
    ensures sizes { IfOk result (λ sizes. IsSizesOf bytes.now sizes) }
    ensures fault { IfErr result (IsRefusedElf bytes.now) }
{
    if bytes.len() < HEADER_SIZE {
        return Err(ElfFault::ElfShort(bytes.len() as u64, HEADER_SIZE as u64));
    }
    let sizes = Sizes {
        code: read_word(bytes, 17),
        globals: read_word(bytes, 25),
        entries: read_word(bytes, 33),
    };
    let header = sizes.header();
    for offset in 0..HEADER_SIZE {
        if !is_header_byte(bytes, sizes, &header, offset) {
            return Err(ElfFault::ElfHeader(offset as u32));
        }
    }
    Ok(sizes)
}

/// Whether the byte at this offset is that of the headers which the sizes demand, and a size that
/// begins here is in range.
fn is_header_byte(bytes: &[u8], sizes: Sizes, header: &[u8; HEADER_SIZE], offset: usize) -> bool
    requires sizes { IsSizesOf bytes.now sizes }
    requires header { header.now ≡ header_bytes sizes.code sizes.globals sizes.entries }
    requires long { 148 ≤ length bytes.now }
    requires within { offset < 148 }
    ensures { IsTrue result ↔ IsHeaderByte bytes.now offset }
{
    bytes[offset] == header[offset] && sizes.is_size_at(offset)
}

/// Tests that there are as many bytes as the headers ask for.
fn check_length(bytes: &[u8], sizes: Sizes) -> Result<(), ElfFault>
    requires header { HasHeader bytes.now }
    requires sizes { IsSizesOf bytes.now sizes }
    ensures length { OnOk result (HasLength bytes.now) }
    ensures fault { IfErr result (IsRefusedElf bytes.now) }
{
    let length = bytes.len() as u64;
    let contents = u64::from(sizes.code) + u64::from(sizes.globals);
    let needed = 148 + contents + u64::from(sizes.entries);
    if length < needed {
        return Err(ElfFault::ElfShort(length, needed));
    }
    if length > needed {
        return Err(ElfFault::ElfTail(needed));
    }
    Ok(())
}

/// The parts of a file in the order of an image. The file's two counts end the image's header.
fn reordered(alloc: Global, bytes: &[u8], sizes: Sizes) -> Result<Vec<u8>, AllocError>
    requires length { HasLength bytes.now }
    requires sizes { IsSizesOf bytes.now sizes }
    ensures { IfOk result (λ image. image.items ≡ image_bytes bytes.now) }
{
    let (_, rest) = bytes.split_at(HEADER_SIZE);
    let (contents, tables) = rest.split_at(sizes.code as usize + sizes.globals as usize);
    let (counts, entries) = tables.split_at(8);
    let mut front = [0; 12];
    LittleEndian::write_u32_into(&[1, sizes.code / 4, sizes.globals / 4], &mut front);
    let mut image = Vec::with_capacity(alloc, 16 + rest.len())?;
    image.extend_from_slice(b"FK95")?;
    image.extend_from_slice(&front)?;
    image.extend_from_slice(counts)?;
    image.extend_from_slice(contents)?;
    image.extend_from_slice(entries)?;
    Ok(image)
}

/// The fault of a file whose parts, in the order of an image, have this fault. Counts that are past
/// their limits, or that don't fit the size of the entries, are words or a length at fault there.
fn elf_fault(fault: ImageFault) -> ElfFault
    ensures fault { (bytes : List ℕ) → HasLength bytes → IsImageFault (image_bytes bytes) fault
        → IsFault bytes result }
    ensures memory { IsMemory result → IsImageMemory fault }
{
    match fault {
        ImageFault::BadTable(entry) => ElfFault::ElfTable(entry),
        ImageFault::Memory(error) => ElfFault::Memory(error),
        _ => ElfFault::ElfSizes,
    }
}

/// The word at a place, counted in words.
fn read_word(bytes: &[u8], place: usize) -> u32
    requires { 4 * place + 4 ≤ length bytes.now }
    ensures { result ≡ word_at bytes.now place }
{
    LittleEndian::read_u32(&bytes[4 * place..])
}
