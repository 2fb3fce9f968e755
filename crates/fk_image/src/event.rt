//! The events of commits.

ghost use Rattle.std.specs.Prelude.{◌≡◌, ◌≤◌};
ghost use Rattle.fk_image.specs.Events.{event_number};

/// What an operation does to the tree of groups.
#[derive(Clone, Copy, PartialEq, Eq, Debug)]
pub enum Event {
    /// Processors begin a `start`, or a group splits.
    Split,
    /// Members leave a loop.
    Shrink,
    /// Members come to the end of their part.
    End,
    /// A group goes on whose parts have ended.
    Resume,
    /// Processors pass a barrier, or end a farm or a seq.
    Meet,
    /// The members of a group agree on a value.
    Agree,
}

impl Event {
    /// The number of the event in a commit table.
    pub fn number(self) -> u32
        ensures number { result ≡ event_number self }
        ensures few { result ≤ 6 }
    {
        match self {
            Event::Split => 1,
            Event::Shrink => 2,
            Event::End => 3,
            Event::Resume => 4,
            Event::Meet => 5,
            Event::Agree => 6,
        }
    }
}
