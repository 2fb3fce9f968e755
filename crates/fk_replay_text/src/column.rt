//! What the lines of a cycle tell.

ghost use Rattle.std.specs.Prelude.{◌≡◌, ◌≢◌, MatchOption};
ghost use Rattle.fk_image.specs.declared.event.Event as events;
ghost use Rattle.fk_trace.specs.Text.{name_of};

use fk_image::Event;

/// What a line tells of harts.
#[derive(Clone, Copy, PartialEq, Eq)]
pub(crate) enum Column {
    /// How many operations they do.
    Counts,
    /// That they have an event.
    Of(Event),
}

/// The event of this name.
pub(crate) fn event_of(name: &[u8]) -> Option<Event>
    ensures { MatchOption result ((event : events.Event) → name.now ≢ name_of event)
        (λ event. name.now ≡ name_of event) }
{
    if name == b"split".as_slice() {
        Some(Event::Split)
    } else if name == b"shrink".as_slice() {
        Some(Event::Shrink)
    } else if name == b"end".as_slice() {
        Some(Event::End)
    } else if name == b"resume".as_slice() {
        Some(Event::Resume)
    } else if name == b"meet".as_slice() {
        Some(Event::Meet)
    } else if name == b"agree".as_slice() {
        Some(Event::Agree)
    } else {
        None
    }
}
