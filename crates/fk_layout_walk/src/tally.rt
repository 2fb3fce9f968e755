//! A visitor that counts operations.

use crate::visitor::{Event, Mark, Visitor};

/// The number of operations that the visitor was shown. It stays at 2^64 - 1 when it gets there.
#[derive(Drop)]
pub struct Tally {
    pub count: u64,
}

impl Visitor for Tally {
    ghost use Rattle.fk_layout_walk.specs.Tally.{tally_after, no_mark};

    ghost after = { tally_after };

    ghost counts = { no_mark };

    fn meet(&mut self, event: Event) {
        if event.operation().is_some() {
            self.count = self.count.saturating_add(1);
        }
    }

    fn mark(&self) -> Mark {
        Mark {
            values: 0,
            most: 0,
            nesting: 0,
            deepest: 0,
        }
    }
}
