//! A sink in memory.
ghost use Rattle.std.specs.Prelude.{◌≡◌, ◌||◌, ◌++◌, ◌≤◌, [], IfOk, OnErr, Some, is_err, length};
ghost use Rattle.std.specs.Prelude.{min, take};
ghost use Rattle.fk_ports.specs.Faults.{one_more};
ghost use Rattle.fk_ports.specs.InMemory.{counted, is_full, is_to_fail, no_calls, room};

use crate::faults::Failed;
use crate::schedule::Schedule;
use crate::sink::Sink;
use std::alloc::{AllocError, Global};
use std::marker::Model;

/// A sink that keeps what it takes in memory, up to its capacity.
#[derive(Drop)]
pub struct MemSink {
    bytes: Vec<u8>,
    capacity: usize,
    calls: Schedule,
    faults: u64,
}

impl Model for MemSink {
    ghost use Rattle.std.specs.Prelude.{◌≤◌, vec_len};
    ghost use Rattle.std.specs.Vec.{vec_capacity};
    ghost use Rattle.fk_ports.specs.InMemory.{SinkState};

    ghost Value = { SinkState };

    ghost view = { λ s. record {
      taken = s.bytes.items;
      capacity = s.capacity;
      calls = s.calls;
      faults = s.faults;
    } };

    ghost invariant = { λ s. (vec_len s.bytes ≤ s.capacity) × (s.capacity ≤ vec_capacity s.bytes) };
}

impl MemSink {
    /// A sink with room for `capacity` bytes, for which it takes memory now. The calls with these
    /// numbers fail, counted from 1.
    pub fn new(alloc: Global, capacity: usize, fails: Vec<u64>) -> Result<MemSink, AllocError>
        ensures { IfOk result (λ sink. sink ≡ record {
          taken = [];
          capacity = capacity;
          calls = no_calls fails.items;
          faults = 0;
        }) }
    {
        Ok(MemSink {
            bytes: Vec::with_capacity(alloc, capacity)?,
            capacity,
            calls: Schedule::new(fails),
            faults: 0,
        })
    }

    /// The bytes that were taken.
    pub fn bytes(&self) -> &[u8]
        ensures { result.now ≡ self.now.taken }
    {
        self.bytes.as_slice()
    }
}

impl Sink for MemSink {
    ghost faults = { λ sink. sink.faults };

    ghost taken = { λ sink. Some sink.taken };

    /// Takes as many bytes as it has room for. It fails exactly if the number of the call is listed
    /// or the sink is full.
    fn give(&mut self, bytes: &[u8]) -> Result<usize, Failed>
        ensures exact { is_err result ≡ (is_to_fail self.old.calls || is_full self.old) }
        ensures count { IfOk result (λ n. n ≡ min (length bytes.now) (room self.old)) }
        ensures taken { IfOk result (λ n. self.new ≡ record self.old {
          taken = self.old.taken ++ take n bytes.now;
          calls = counted self.old.calls;
        }) }
        ensures refused { OnErr result (self.new ≡ record self.old {
          calls = counted self.old.calls;
          faults = one_more self.old.faults;
        }) }
        ensures never_falls { self.old.faults ≤ self.new.faults }
    {
        let fails = self.calls.next_fails();
        let room = self.capacity - self.bytes.len();
        if fails || room == 0 {
            self.faults = self.faults.saturating_add(1);
            return Err(Failed);
        }
        let count = room.min(bytes.len());
        let _fits = self.bytes.extend_from_slice(&bytes[..count]);
        Ok(count)
    }
}
