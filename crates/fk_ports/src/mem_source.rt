//! A source in memory.
ghost use Rattle.std.specs.Prelude.{◌≡◌, ◌≤◌, IfOk, OnErr, Some, drop, is_err, length, min, take};
ghost use Rattle.fk_ports.specs.Faults.{one_more};
ghost use Rattle.fk_ports.specs.InMemory.{counted, is_to_fail, no_calls};

use crate::faults::Failed;
use crate::schedule::Schedule;
use crate::source::Source;
use crate::unread::Unread;
use std::marker::Model;

/// A source of bytes in memory, whose calls fail as listed.
#[derive(Drop)]
pub struct MemSource {
    unread: Unread,
    calls: Schedule,
    faults: u64,
}

impl Model for MemSource {
    ghost use Rattle.fk_ports.specs.InMemory.{SourceState};

    ghost Value = { SourceState };

    ghost view = { λ s. record { left = s.unread; calls = s.calls; faults = s.faults } };
}

impl MemSource {
    /// A source of these bytes. The calls with these numbers fail, counted from 1.
    pub fn new(bytes: Vec<u8>, fails: Vec<u64>) -> MemSource
        ensures { result ≡ record { left = bytes.items; calls = no_calls fails.items; faults = 0 } }
    {
        MemSource {
            unread: Unread::new(bytes),
            calls: Schedule::new(fails),
            faults: 0,
        }
    }
}

impl Source for MemSource {
    ghost faults = { λ source. source.faults };

    ghost left = { λ source. Some source.left };

    /// Moves as many bytes as are left and have room. It fails exactly if the number of the call is
    /// listed.
    fn take(&mut self, into: &mut [u8]) -> Result<usize, Failed>
        ensures exact { is_err result ≡ is_to_fail self.old.calls }
        ensures count { IfOk result (λ n. n ≡ min (length self.old.left) (length into.old)) }
        ensures moved { IfOk result (λ n. take n into.new ≡ take n self.old.left) }
        ensures beyond { IfOk result (λ n. drop n into.new ≡ drop n into.old) }
        ensures taken { IfOk result (λ n. self.new ≡ record self.old {
          left = drop n self.old.left;
          calls = counted self.old.calls;
        }) }
        ensures refused { OnErr result (self.new ≡ record self.old {
          calls = counted self.old.calls;
          faults = one_more self.old.faults;
        }) }
        ensures unwritten { OnErr result (into.new ≡ into.old) }
        ensures never_falls { self.old.faults ≤ self.new.faults }
    {
        if self.calls.next_fails() {
            self.faults = self.faults.saturating_add(1);
            return Err(Failed);
        }
        Ok(self.unread.move_to(into))
    }
}
