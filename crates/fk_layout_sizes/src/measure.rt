//! A visitor that measures code.

ghost use Rattle.std.specs.Prelude.{◌≡◌};
ghost use Rattle.fk_layout_sizes.specs.Measure as m;

use crate::operations::{nests, pushes, takes};
use fk_layout_walk::{Event, Mark, Visitor};
use fk_meaning_operation::Operation;

/// The number of values and the depth of nesting at the current place, and the greatest of each so
/// far.
#[derive(Drop)]
pub struct Measure {
    pub mark: Mark,
}

// Raises the greatest counts to the current ones.
fn raised(mark: Mark) -> Mark
    ensures { result ≡ m.raised mark }
{
    Mark {
        values: mark.values,
        most: mark.most.max(mark.values),
        nesting: mark.nesting,
        deepest: mark.deepest.max(mark.nesting),
    }
}

// The mark after an operation.
fn performed(mark: Mark, operation: Operation) -> Mark
    ensures { result ≡ m.performed mark operation }
{
    let kept = mark.values.saturating_sub(takes(operation) as u64);
    raised(Mark {
        values: kept.saturating_add(pushes(operation) as u64),
        most: mark.most,
        nesting: mark.nesting.saturating_add(nests(operation) as u64),
        deepest: mark.deepest,
    })
}

// The mark after a call, where `entered` is the mark at its beginning.
fn returned(entered: Mark, void: bool) -> Mark
    ensures { result ≡ m.returned entered void }
{
    let results = if void { 0 } else { 1 };
    raised(Mark {
        values: entered.values.saturating_add(results),
        most: entered.most,
        nesting: entered.nesting,
        deepest: entered.deepest,
    })
}

impl Visitor for Measure {
    ghost use Rattle.fk_layout_sizes.specs.Measure.{measure_after, mark_of};

    ghost after = { measure_after };

    ghost counts = { mark_of };

    fn meet(&mut self, event: Event) {
        let now = self.mark;
        self.mark = match event {
            Event::Aside(before) => Mark {
                values: before.values,
                nesting: before.nesting,
                ..now
            },
            Event::Joined(before, first) => Mark {
                values: first.values,
                nesting: before.nesting,
                ..now
            },
            Event::Returned(entered, void) => returned(entered, void),
            _ => match event.operation() {
                Some((operation, _)) => performed(now, operation),
                None => now,
            },
        };
    }

    fn mark(&self) -> Mark {
        self.mark
    }
}
