//! The headers of a file.

ghost use Rattle.std.specs.Prelude.{◌≡◌, ◌↔◌, IsTrue};
ghost use Rattle.fk_elf.specs.Files.{header_bytes};
ghost use Rattle.fk_elf.specs.Refusals.{IsSize, IsSizeAt};

use byteorder::{ByteOrder, LittleEndian};
use fk_num::{MOST_CODE_WORDS, MOST_DATA_WORDS};

/// The number of bytes of all headers.
pub const HEADER_SIZE: usize = 148;

/// The numbers of bytes of the three parts of a file.
#[derive(Clone, Copy)]
pub struct Sizes {
    /// The bytes of the code.
    pub code: u32,
    /// The bytes of the globals.
    pub globals: u32,
    /// The bytes of the two counts, the sites and the commits.
    pub entries: u32,
}

impl Sizes {
    /// The headers of a file whose parts have these sizes. An offset wraps only if a size before it
    /// is out of range.
    pub fn header(self) -> [u8; HEADER_SIZE]
        ensures { result ≡ header_bytes self.code self.globals self.entries }
    {
        let globals_at = 148_u32.wrapping_add(self.code);
        let entries_at = globals_at.wrapping_add(self.globals);
        let (code, globals, entries) = (self.code, self.globals, self.entries);
        let words = [
            // The file itself.
            0x464c457f, 0x00010101, 0, 0, 0x00f30002, 1, 0, 52, 0, 0, 0x00200034, 3, 0,
            // The code.
            1, 148, 0, 0, code, code, 5, 4,
            // The globals.
            1, globals_at, 0x10000000, 0x10000000, globals, 4_194_304, 6, 4,
            // The counts and entries.
            0x60000095, entries_at, 0, 0, entries, 0, 4, 4,
        ];
        let mut bytes = [0; HEADER_SIZE];
        LittleEndian::write_u32_into(&words, &mut bytes);
        bytes
    }

    /// Whether a size that begins at this offset is in range.
    pub fn is_size_at(self, offset: usize) -> bool
        ensures { IsTrue result ↔ IsSizeAt self.code self.globals self.entries offset }
    {
        match offset {
            68 => is_size(self.code, 4, 4 * MOST_CODE_WORDS),
            100 => is_size(self.globals, 0, 4 * MOST_DATA_WORDS),
            132 => is_size(self.entries, 8, 8 + 12 * 16_000 + 8 * MOST_CODE_WORDS),
            _ => true,
        }
    }
}

/// Whether a size is in range: whole words, and within these limits.
fn is_size(size: u32, low: u32, high: u32) -> bool
    ensures { IsTrue result ↔ IsSize low high size }
{
    size % 4 == 0 && (low..=high).contains(&size)
}
