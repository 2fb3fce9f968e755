//! The number of values that the running call has at a place in code.

ghost use Rattle.std.specs.Prelude.{◌≡◌};
ghost use Rattle.fk_lower_text.specs.Height as h;

use fk_layout_sizes::{pushes, takes};
use fk_layout_walk::{Event, Mark};
use fk_meaning_operation::Operation;

/// The number of values after the events so far. Above 2^64 - 1 it stays at that number.
#[derive(Clone, Copy, PartialEq, Eq, Debug)]
pub(crate) struct Height {
    /// The values of the call whose code is shown.
    pub(crate) values: u64,
    /// The values of a call that begins, while the events of its beginning are shown.
    pub(crate) beginning: Option<u64>,
}

fn behind(values: u64, operation: Operation) -> u64
    ensures { result ≡ h.behind values operation }
{
    let kept = values.saturating_sub(takes(operation) as u64);
    kept.saturating_add(pushes(operation) as u64)
}

impl Height {
    /// The height at the beginning of a function.
    pub(crate) const NOTHING: Height = Height {
        values: 0,
        beginning: None,
    };

    /// The number of values that the running call has. Above 2^32 - 1 it is that number.
    pub(crate) fn depth(&self) -> u32
        ensures { result ≡ h.depth self.now }
    {
        let values = match self.beginning {
            Some(values) => values,
            None => self.values,
        };
        values.min(u64::from(u32::MAX)) as u32
    }

    fn performed(self, operation: Operation) -> Height
        ensures { result ≡ h.performed self operation }
    {
        match self.beginning {
            Some(values) => Height {
                values: self.values,
                beginning: Some(behind(values, operation)),
            },
            None => Height {
                values: behind(self.values, operation),
                beginning: None,
            },
        }
    }

    /// The height after an event.
    pub(crate) fn after(self, event: Event) -> Height
        ensures { result ≡ h.after self event }
    {
        match event {
            Event::Call(operation, _, _) => Height {
                values: behind(self.values, operation),
                beginning: Some(0),
            },
            Event::Returned(entered, void) => Height {
                values: if void {
                    entered.values
                } else {
                    entered.values.saturating_add(1)
                },
                beginning: None,
            },
            Event::Aside(inside) => Height {
                values: inside.values,
                beginning: None,
            },
            Event::Joined(_, first) => Height {
                values: first.values,
                beginning: None,
            },
            _ => match event.operation() {
                Some((operation, _)) => self.performed(operation),
                None => self,
            },
        }
    }

    pub(crate) fn mark(&self) -> Mark
        ensures { result ≡ h.mark_of self.now }
    {
        Mark {
            values: self.values,
            most: 0,
            nesting: 0,
            deepest: 0,
        }
    }
}
