//! A store, a source and a sink that never fail.
ghost use Rattle.std.specs.Prelude.{◌≡◌, ◌+◌, ◌-◌, ◌^◌, ◌++◌, IsOk, IsOkUnless, None, Ok, OnErr};
ghost use Rattle.std.specs.Prelude.{OnOk, Some, drop, length, min, take};

use crate::faults::{Failed, StoreFault};
use crate::sink::Sink;
use crate::source::Source;
use crate::store::Store;
use crate::unread::Unread;
use std::marker::Model;

/// A source of bytes in memory. It never fails.
#[derive(Drop)]
pub struct SureSource {
    unread: Unread,
}

impl Model for SureSource {
    ghost use Rattle.std.specs.Prelude.{ℕ, List};

    ghost Value = { List ℕ };

    ghost view = { λ s. s.unread };
}

impl SureSource {
    /// A source of these bytes.
    pub fn new(bytes: Vec<u8>) -> SureSource
        ensures { result ≡ bytes.items }
    {
        SureSource {
            unread: Unread::new(bytes),
        }
    }
}

impl Source for SureSource {
    ghost faults = { λ _. 0 };

    ghost left = { λ bytes. Some bytes };

    /// Moves as many bytes as are left and have room.
    fn take(&mut self, into: &mut [u8]) -> Result<usize, Failed>
        ensures count { result ≡ Ok (min (length self.old) (length into.old)) }
        ensures left { self.new ≡ drop (min (length self.old) (length into.old)) self.old }
        ensures moved { take (min (length self.old) (length into.old)) into.new
            ≡ take (min (length self.old) (length into.old)) self.old }
        ensures beyond { drop (min (length self.old) (length into.old)) into.new
            ≡ drop (min (length self.old) (length into.old)) into.old }
    {
        Ok(self.unread.move_to(into))
    }
}

/// A store that has the same bytes under every name, and forgets what is put. It never fails.
#[derive(Drop)]
pub struct SureStore {
    bytes: Vec<u8>,
}

impl Model for SureStore {
    ghost use Rattle.std.specs.Prelude.{ℕ, List};

    ghost Value = { List ℕ };

    ghost view = { λ s. s.bytes.items };
}

impl SureStore {
    /// A store with these bytes under every name.
    pub fn new(bytes: Vec<u8>) -> SureStore
        ensures { result ≡ bytes.items }
    {
        SureStore { bytes }
    }
}

impl Store for SureStore {
    ghost fetch_faults = { λ _. 0 };

    ghost put_faults = { λ _. 0 };

    ghost files = { λ _. None };

    /// Appends the first `most` of its bytes, whatever the name. It fails only if there isn't
    /// enough memory.
    fn fetch(&mut self, _name: &str, most: usize, into: &mut Vec<u8>) -> Result<(), StoreFault>
        ensures sure { IsOkUnless result StoreFault.Memory }
        ensures appended { OnOk result (into.new.items ≡ into.old.items ++ take most self.old) }
        ensures refused { OnErr result (into.new.items ≡ into.old.items) }
        ensures same { self.new ≡ self.old }
    {
        let count = most.min(self.bytes.len());
        into.extend_from_slice(&self.bytes[..count])?;
        Ok(())
    }

    /// Forgets the bytes.
    fn put(&mut self, _name: &str, _bytes: &[u8]) -> Result<(), StoreFault>
        ensures sure { IsOk result }
        ensures same { self.new ≡ self.old }
    {
        Ok(())
    }
}

/// A sink that keeps only the number of bytes. It never fails.
#[derive(Drop)]
pub struct SureSink {
    count: u64,
}

impl Model for SureSink {
    ghost use Rattle.std.specs.Prelude.{ℕ};

    ghost Value = { ℕ };

    ghost view = { λ s. s.count };
}

impl SureSink {
    /// A sink that has taken nothing yet.
    pub fn new() -> SureSink
        ensures { result ≡ 0 }
    {
        SureSink { count: 0 }
    }

    /// The number of bytes that were taken. It stays at 2^64 - 1.
    pub fn count(&self) -> u64
        ensures { result ≡ self.now }
    {
        self.count
    }
}

impl Sink for SureSink {
    ghost faults = { λ _. 0 };

    ghost taken = { λ _. None };

    /// Takes all of a piece.
    fn give(&mut self, bytes: &[u8]) -> Result<usize, Failed>
        ensures all { result ≡ Ok (length bytes.now) }
        ensures counted { self.new ≡ min (self.old + length bytes.now) (2 ^ 64 - 1) }
    {
        self.count = self.count.saturating_add(bytes.len() as u64);
        Ok(bytes.len())
    }
}
