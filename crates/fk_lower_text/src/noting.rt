//! The code of a function, as events for a builder.

ghost use Rattle.std.specs.Prelude.{◌≡◌, IfErr, IfOk, map};
ghost use Rattle.fk_syntax.specs.ProgramView.{function_of};
ghost use Rattle.fk_layout_walk.specs.Known.{IsSound};
ghost use Rattle.fk_layout_walk_statements.specs.Texts.{code_in};
ghost use Rattle.fk_lower.specs.Building as b;
ghost use Rattle.fk_lower.specs.BuilderView.{event_of};
ghost use Rattle.fk_lower_text.specs.Noting.{told, noted};
ghost use Rattle.fk_lower_text.specs.Whole.{IsPlain};

use crate::count::Count;
use fk_layout_walk::{Event, Mark, ProgramTables, Visitor};
use fk_layout_walk_statements::function;
use fk_lower::{CodeEvent, LowerFault};
use fk_syntax::Function;
use std::alloc::Global;

/// A visitor that records the events that it meets, as long as there is room.
#[derive(Drop)]
pub(crate) struct Noting {
    pub(crate) events: Vec<CodeEvent>,
    /// The number of events that are recorded.
    pub(crate) filled: usize,
}

// An event of a visitor, as one for a builder.
fn told(event: Event) -> CodeEvent
    ensures { result ≡ told event }
{
    match event {
        Event::Perform(operation, _) => CodeEvent::Perform(operation),
        Event::Choose(operation, _) => CodeEvent::Choose(operation),
        Event::Aside(_) => CodeEvent::Aside,
        Event::Joined(_, _) => CodeEvent::Joined,
        Event::Quit(operation, _) => CodeEvent::Quit(operation),
        Event::Call(operation, _, function) => CodeEvent::Call(operation, function),
        Event::Returned(_, _) => CodeEvent::Returned,
        Event::Ends(operation, _) => CodeEvent::Ends(operation),
        Event::While => CodeEvent::While,
        Event::Until => CodeEvent::Until,
        Event::Part => CodeEvent::Part,
        Event::Behind => CodeEvent::Behind,
        Event::Break => CodeEvent::Break,
        Event::Continue => CodeEvent::Continue,
    }
}

impl Noting {
    // Records an event, if there is room.
    fn write(&mut self, event: CodeEvent)
        ensures { self.new ≡ noted self.old event }
    {
        if self.filled < self.events.len() {
            self.events[self.filled] = event;
            self.filled += 1;
        }
    }
}

impl Visitor for Noting {
    ghost use Rattle.fk_lower_text.specs.Noting.{noting_after, no_mark};

    ghost after = { noting_after };

    ghost counts = { no_mark };

    fn meet(&mut self, event: Event) {
        self.write(told(event));
    }

    fn mark(&self) -> Mark {
        Mark {
            values: 0,
            most: 0,
            nesting: 0,
            deepest: 0,
        }
    }
}

/// The events that show the code of a function. It takes time and memory linear in their number.
///
/// # Errors
///
/// `Memory` if there isn't enough memory.
pub(crate) fn events_of(
    alloc: Global,
    known: &ProgramTables,
    whole: &Function,
) -> Result<Vec<CodeEvent>, LowerFault>
    requires { IsSound known.now }
    ensures events { IsPlain (code_in known.now (function_of whole.now)) → IfOk result (λ events.
        map event_of events.items ≡ b.events_of (code_in known.now (function_of whole.now))) }
    ensures refused { IfErr result (λ fault. fault ≡ LowerFault.Memory) }
{
    let mut count = Count { events: 0 };
    function(known, &mut count, whole);
    if count.events == u64::MAX {
        return Err(LowerFault::Memory);
    }
    let Ok(events) = vec![in alloc; CodeEvent::Break; count.events as usize] else {
        return Err(LowerFault::Memory);
    };
    let mut noting = Noting { events, filled: 0 };
    function(known, &mut noting, whole);
    Ok(noting.events)
}
