//! A visitor that counts events.

use fk_layout_walk::{Event, Mark, Visitor};

/// The number of events met. Above 2^64 - 1 it stays at that number.
#[derive(Drop)]
pub(crate) struct Count {
    pub(crate) events: u64,
}

impl Visitor for Count {
    ghost use Rattle.fk_lower_text.specs.Counting.{count_after, no_mark};

    ghost after = { count_after };

    ghost counts = { no_mark };

    fn meet(&mut self, _event: Event) {
        self.events = self.events.saturating_add(1);
    }

    fn mark(&self) -> Mark {
        Mark {
            values: 0,
            most: 0,
            nesting: 0,
            deepest: 0,
        }
    }
}
