//! Handmade ELF files of images.

use crate::image::{ONE_COMMIT, ONE_OF_EACH};
use crate::refused::Refused;
use fk_elf::{ElfFault, read_elf, write_elf};
use fk_image::{Image, read_image, write_image};
use std::alloc::{AllocError, Global};
use std::test::Fail;

/// The file of an image with two words of code, and a commit at the second.
const ONE_COMMIT_FILE: [u8; 172] = [
    0x7f, 0x45, 0x4c, 0x46, 1, 1, 1, 0, 0, 0, 0, 0, 0, 0, 0, 0, 2, 0, 0xf3, 0, 1, 0, 0, 0, 0, 0, 0,
    0, 0x34, 0, 0, 0, 0, 0, 0, 0, 0, 0, 0, 0, 0x34, 0, 0x20, 0, 3, 0, 0, 0, 0, 0, 0, 0, 1, 0, 0, 0,
    0x94, 0, 0, 0, 0, 0, 0, 0, 0, 0, 0, 0, 8, 0, 0, 0, 8, 0, 0, 0, 5, 0, 0, 0, 4, 0, 0, 0, 1, 0, 0,
    0, 0x9c, 0, 0, 0, 0, 0, 0, 0x10, 0, 0, 0, 0x10, 0, 0, 0, 0, 0, 0, 0x40, 0, 6, 0, 0, 0, 4, 0, 0,
    0, 0x95, 0, 0, 0x60, 0x9c, 0, 0, 0, 0, 0, 0, 0, 0, 0, 0, 0, 0x10, 0, 0, 0, 0, 0, 0, 0, 4, 0, 0,
    0, 4, 0, 0, 0, 0xb7, 2, 0, 0x30, 0x23, 0xa6, 2, 0, 0, 0, 0, 0, 1, 0, 0, 0, 4, 0, 0, 0, 1, 0, 0,
    0,
];

/// The file of an image with one entry in each of its tables.
const ONE_OF_EACH_FILE: [u8; 184] = [
    0x7f, 0x45, 0x4c, 0x46, 1, 1, 1, 0, 0, 0, 0, 0, 0, 0, 0, 0, 2, 0, 0xf3, 0, 1, 0, 0, 0, 0, 0, 0,
    0, 0x34, 0, 0, 0, 0, 0, 0, 0, 0, 0, 0, 0, 0x34, 0, 0x20, 0, 3, 0, 0, 0, 0, 0, 0, 0, 1, 0, 0, 0,
    0x94, 0, 0, 0, 0, 0, 0, 0, 0, 0, 0, 0, 4, 0, 0, 0, 4, 0, 0, 0, 5, 0, 0, 0, 4, 0, 0, 0, 1, 0, 0,
    0, 0x98, 0, 0, 0, 0, 0, 0, 0x10, 0, 0, 0, 0x10, 4, 0, 0, 0, 0, 0, 0x40, 0, 6, 0, 0, 0, 4, 0, 0,
    0, 0x95, 0, 0, 0x60, 0x9c, 0, 0, 0, 0, 0, 0, 0, 0, 0, 0, 0, 0x1c, 0, 0, 0, 0, 0, 0, 0, 4, 0, 0,
    0, 4, 0, 0, 0, 1, 2, 3, 4, 5, 6, 7, 8, 1, 0, 0, 0, 1, 0, 0, 0, 9, 0, 0, 0, 0x0a, 0, 0, 0, 0x0b,
    0, 0, 0, 0, 0, 0, 0, 0x0c, 0, 0, 0,
];

// Whether an image has this file, which is read as the same image.
fn is_kept(alloc: Global, image: &[u8], file: &[u8]) -> Result<bool, Fail> {
    let written = write_elf(alloc, &read_image(alloc, image)?)?;
    let read: Image = read_elf(alloc, file)?;
    let back = write_image(alloc, &read)?;
    Ok(written.as_slice() == file && back.as_slice() == image)
}

#[test]
fn files_are_written_and_read_back(rt: HostRuntime) -> Result<(), Fail> {
    assert!(rt;
        is_kept(rt.alloc(), &ONE_COMMIT, &ONE_COMMIT_FILE)?,
        "one commit"
    );
    assert!(rt;
        is_kept(rt.alloc(), &ONE_OF_EACH, &ONE_OF_EACH_FILE)?,
        "one of each"
    );
    Ok(())
}

static REFUSED: [Refused; 10] = [
    Refused {
        of: &ONE_COMMIT_FILE,
        length: 0,
        at: 0,
        byte: 0x7f,
        why: "there are 0 bytes of 148",
    },
    Refused {
        of: &ONE_COMMIT_FILE,
        length: 147,
        at: 0,
        byte: 0,
        why: "there are 147 bytes of 148",
    },
    Refused {
        of: &ONE_COMMIT_FILE,
        length: 171,
        at: 0,
        byte: 0x7f,
        why: "there are 171 bytes of 172",
    },
    Refused {
        of: &ONE_COMMIT_FILE,
        length: 173,
        at: 0,
        byte: 0x7f,
        why: "bytes follow the 172 of the file",
    },
    // Another machine, in a file that is too long.
    Refused {
        of: &ONE_COMMIT_FILE,
        length: 173,
        at: 18,
        byte: 0xf4,
        why: "byte 18 is not that of the headers of an image's file",
    },
    // One site too many.
    Refused {
        of: &ONE_COMMIT_FILE,
        length: 172,
        at: 156,
        byte: 1,
        why: "the numbers of sites and commits don't fit their part of the file",
    },
    // One commit too few.
    Refused {
        of: &ONE_COMMIT_FILE,
        length: 172,
        at: 160,
        byte: 0,
        why: "the numbers of sites and commits don't fit their part of the file",
    },
    // A commit without a count.
    Refused {
        of: &ONE_COMMIT_FILE,
        length: 172,
        at: 168,
        byte: 0,
        why: "entry 0 of the tables is past its limits",
    },
    // A site with a kind out of range.
    Refused {
        of: &ONE_OF_EACH_FILE,
        length: 184,
        at: 164,
        byte: 0,
        why: "entry 0 of the tables is past its limits",
    },
    // A commit without a count, after a site.
    Refused {
        of: &ONE_OF_EACH_FILE,
        length: 184,
        at: 180,
        byte: 0,
        why: "entry 1 of the tables is past its limits",
    },
];

// Whether bytes are refused for the expected reason.
fn is_refused(alloc: Global, row: &Refused) -> Result<bool, AllocError> {
    let bytes = row.bytes(alloc)?;
    match read_elf(alloc, &bytes) {
        Ok(_) => Ok(false),
        Err(fault) => row.is_reason(alloc, &fault),
    }
}

#[test]
fn the_first_refusal_is_answered_in_words(rt: HostRuntime) -> Result<(), AllocError> {
    for row in &REFUSED {
        assert!(rt; is_refused(rt.alloc(), row)?, "{}", row.why);
    }
    Ok(())
}

// The byte at which a file of two words of code and one commit is refused, where one is added to
// this byte of its headers. A size that stays in range is found out by the first byte behind it that
// depends on it. On the size of the entries only the length does.
fn refused_at(offset: u32) -> Option<u32> {
    match offset {
        69 => Some(73),
        70 => Some(74),
        71 => Some(68),
        101 => Some(121),
        102 => Some(122),
        103 => Some(100),
        133 | 134 => None,
        135 => Some(132),
        _ => Some(offset),
    }
}

// Whether the file is refused there.
fn is_refused_at(alloc: Global, offset: u32) -> Result<bool, AllocError> {
    let mut bytes = Vec::from_slice(alloc, &ONE_COMMIT_FILE)?;
    let place = offset as usize;
    if place < bytes.len() {
        bytes[place] = bytes[place].wrapping_add(1);
    }
    match read_elf(alloc, &bytes) {
        Err(ElfFault::ElfHeader(at)) => Ok(refused_at(offset) == Some(at)),
        Err(ElfFault::ElfShort(_, _)) => Ok(refused_at(offset).is_none()),
        _ => Ok(false),
    }
}

#[test]
fn each_byte_of_the_headers_counts(rt: HostRuntime) -> Result<(), AllocError> {
    for offset in 0..148 {
        assert!(rt; is_refused_at(rt.alloc(), offset)?, "{offset}");
    }
    Ok(())
}
