//! Bytes in memory that are read from their front.
ghost use Rattle.std.specs.Prelude.{◌≡◌, drop, length, min, take};

use std::marker::Model;

/// The bytes in memory that are left.
#[derive(Drop)]
pub(crate) struct Unread {
    bytes: Vec<u8>,
    start: usize,
}

impl Model for Unread {
    ghost use Rattle.std.specs.Prelude.{ℕ, ◌≤◌, List, drop, vec_len};

    ghost Value = { List ℕ };

    ghost view = { λ u. drop u.start u.bytes.items };

    ghost invariant = { λ u. u.start ≤ vec_len u.bytes };
}

impl Unread {
    pub(crate) fn new(bytes: Vec<u8>) -> Unread
        ensures { result ≡ bytes.items }
    {
        Unread { bytes, start: 0 }
    }

    /// Moves as many bytes as are left and have room, and gives how many.
    pub(crate) fn move_to(&mut self, into: &mut [u8]) -> usize
        ensures count { result ≡ min (length self.old) (length into.old) }
        ensures left { self.new ≡ drop result self.old }
        ensures moved { take result into.new ≡ take result self.old }
        ensures beyond { drop result into.new ≡ drop result into.old }
    {
        let left = &self.bytes[self.start..];
        let count = left.len().min(into.len());
        into[..count].copy_from_slice(&left[..count]);
        self.start += count;
        count
    }
}
