//! Short texts.

ghost use Rattle.std.specs.Prelude.{◌≡◌, ◌<◌, ◌≤◌, [], Some, IfOk, OnErr, OnOk, length, take};

use arrayvec::ArrayVec;
use fk_ports::{Failed, Sink};

/// The most bytes of a short text.
const MOST_BYTES: usize = 480;

/// A sink that keeps what it takes. It has room for a short text, and fails if a piece has no room.
/// It takes no memory.
#[derive(Drop)]
pub struct ShortText {
    bytes: ArrayVec<u8, 480>,
    faults: u64,
}

impl ShortText {
    /// An empty text.
    pub fn new() -> ShortText
        ensures { result.bytes.items ≡ [] }
    {
        ShortText {
            bytes: ArrayVec::new(),
            faults: 0,
        }
    }

    /// The bytes that were taken.
    pub fn bytes(&self) -> &[u8]
        ensures { result.now ≡ self.now.bytes.items }
    {
        self.bytes.as_slice()
    }
}

impl Sink for ShortText {
    ghost faults = { λ text. text.faults };

    ghost taken = { λ text. Some text.bytes.items };

    /// Takes a whole piece, or nothing of it.
    fn give(&mut self, bytes: &[u8]) -> Result<usize, Failed> {
        if bytes.len() > MOST_BYTES - self.bytes.len() {
            self.faults = self.faults.saturating_add(1);
            return Err(Failed);
        }
        let _ = self.bytes.try_extend_from_slice(bytes);
        Ok(bytes.len())
    }
}
