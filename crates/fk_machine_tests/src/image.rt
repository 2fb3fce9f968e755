//! Handmade bytes of images.

use crate::refused::Refused;
use fk_image::{read_image, write_image};
use std::alloc::{AllocError, Global};
use std::test::Fail;

/// One word of code, `amoadd.w a0, a1, (a2)`.
const ONE_WORD: [u8; 28] = [
    0x46, 0x4b, 0x39, 0x35, 1, 0, 0, 0, 1, 0, 0, 0, 0, 0, 0, 0, 0, 0, 0, 0, 0, 0, 0, 0, 0x2f, 0x25,
    0xb6, 0x00,
];

/// Two words of code, and a commit at the second.
pub const ONE_COMMIT: [u8; 40] = [
    0x46, 0x4b, 0x39, 0x35, 1, 0, 0, 0, 2, 0, 0, 0, 0, 0, 0, 0, 0, 0, 0, 0, 1, 0, 0, 0, 0xb7, 0x02,
    0x00, 0x30, 0x23, 0xa6, 0x02, 0x00, 4, 0, 0, 0, 1, 0, 0, 0,
];

/// One entry in each of the tables, with bytes that show their order.
pub const ONE_OF_EACH: [u8; 52] = [
    0x46, 0x4b, 0x39, 0x35, 1, 0, 0, 0, 1, 0, 0, 0, 1, 0, 0, 0, 1, 0, 0, 0, 1, 0, 0, 0, 1, 2, 3, 4,
    5, 6, 7, 8, 9, 0, 0, 0, 10, 0, 0, 0, 11, 0, 0, 0, 0, 0, 0, 0, 12, 0, 0, 0,
];

/// Bytes, and the image that they encode.
struct Spelled {
    bytes: &'static [u8],
    code: &'static [u32],
    globals: &'static [u32],
    sites: &'static [(u32, u32, u32)],
    commits: &'static [(u32, u32)],
}

static SPELLED: [Spelled; 3] = [
    Spelled {
        bytes: &ONE_WORD,
        code: &[0x00b6_252f],
        globals: &[],
        sites: &[],
        commits: &[],
    },
    Spelled {
        bytes: &ONE_COMMIT,
        code: &[0x3000_02b7, 0x0002_a623],
        globals: &[],
        sites: &[],
        commits: &[(4, 1)],
    },
    Spelled {
        bytes: &ONE_OF_EACH,
        code: &[0x0403_0201],
        globals: &[0x0807_0605],
        sites: &[(9, 10, 11)],
        commits: &[(0, 12)],
    },
];

// Whether bytes are read as their image, which is written back as the same bytes.
fn is_read(alloc: Global, row: &Spelled) -> Result<bool, Fail> {
    let image = read_image(alloc, row.bytes)?;
    let written = write_image(alloc, &image)?;
    Ok(
        written.as_slice() == row.bytes
            && image.code.as_slice() == row.code
            && image.globals.as_slice() == row.globals
            && image.sites.as_slice() == row.sites
            && image.commits.as_slice() == row.commits,
    )
}

#[test]
fn images_are_read_and_written_back(rt: HostRuntime) -> Result<(), Fail> {
    for row in &SPELLED {
        assert!(rt; is_read(rt.alloc(), row)?, "{}", row.bytes.len());
    }
    Ok(())
}

static REFUSED: [Refused; 8] = [
    Refused {
        of: &ONE_WORD,
        length: 27,
        at: 0,
        byte: 0x46,
        why: "there are 27 bytes of 28",
    },
    Refused {
        of: &ONE_WORD,
        length: 29,
        at: 0,
        byte: 0x46,
        why: "bytes follow the 28 of the image",
    },
    Refused {
        of: &ONE_WORD,
        length: 24,
        at: 8,
        byte: 0,
        why: "word 2 of the header is past its limits",
    },
    Refused {
        of: &ONE_WORD,
        length: 0,
        at: 0,
        byte: 0x46,
        why: "there are 0 bytes of 24",
    },
    Refused {
        of: &ONE_WORD,
        length: 28,
        at: 0,
        byte: 0x47,
        why: "the bytes don't begin with FK95",
    },
    Refused {
        of: &ONE_WORD,
        length: 28,
        at: 4,
        byte: 3,
        why: "version 3 is not known",
    },
    Refused {
        of: &ONE_COMMIT,
        length: 40,
        at: 36,
        byte: 0,
        why: "entry 0 of the tables is past its limits",
    },
    // A site with a kind out of range.
    Refused {
        of: &ONE_OF_EACH,
        length: 52,
        at: 32,
        byte: 0,
        why: "entry 0 of the tables is past its limits",
    },
];

// Whether bytes are refused for the expected reason.
fn is_refused(alloc: Global, row: &Refused) -> Result<bool, AllocError> {
    let bytes = row.bytes(alloc)?;
    match read_image(alloc, &bytes) {
        Ok(_) => Ok(false),
        Err(fault) => row.is_reason(alloc, &fault),
    }
}

#[test]
fn the_first_refusal_is_answered_in_words(rt: HostRuntime) -> Result<(), AllocError> {
    for row in &REFUSED {
        assert!(rt; is_refused(rt.alloc(), row)?, "{}", row.why);
    }
    Ok(())
}
