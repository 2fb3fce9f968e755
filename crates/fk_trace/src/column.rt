//! What the lines of a cycle tell.

ghost use Rattle.std.specs.Prelude.{◌≡◌};
ghost use Rattle.fk_trace.specs.Text.{name_of, number_in, shows};

use fk_image::Event;

/// All events, in the order of their lines.
pub const ALL_EVENTS: [Event; 6] = [
    Event::Split,
    Event::Shrink,
    Event::End,
    Event::Resume,
    Event::Meet,
    Event::Agree,
];

/// The name of an event in a trace.
pub fn name_of(event: Event) -> &'static [u8]
    ensures { result.now ≡ name_of event }
{
    match event {
        Event::Split => b"split",
        Event::Shrink => b"shrink",
        Event::End => b"end",
        Event::Resume => b"resume",
        Event::Meet => b"meet",
        Event::Agree => b"agree",
    }
}

/// What a line tells of each hart.
#[derive(Clone, Copy, PartialEq, Eq, Debug)]
pub enum Column {
    /// How many operations it commits.
    Counts,
    /// Whether it has an event.
    Of(Event),
}

impl Column {
    /// The number of a hart in this column, by what it commits: the count or the event, and 0 if it
    /// commits nothing.
    pub fn number_in(self, commit: Option<(u32, u32)>) -> u32
        ensures { result ≡ number_in self commit }
    {
        let Some((count, event)) = commit else {
            return 0;
        };
        match self {
            Column::Counts => count,
            Column::Of(_) => event,
        }
    }

    /// Whether harts with this number are in the line.
    pub fn shows(self, number: u32) -> bool
        ensures { result ≡ shows self number }
    {
        match self {
            Column::Counts => number != 0,
            Column::Of(event) => number == event.number(),
        }
    }
}
