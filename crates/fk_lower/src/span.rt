//! What is known of code before its place is known.

ghost use Rattle.std.specs.Prelude.{◌≡◌, ◌+◌, ◌^◌, ◌<◌, ◌≤◌};
ghost use Rattle.fk_core_flat.specs.Flat.{gap};
ghost use Rattle.fk_lower.specs.Spans.{moved, round, span_in, offset};

/// Where code begins.
#[derive(Clone, Copy, PartialEq, Eq, Debug)]
pub enum Start {
    /// This many operations and jumps after the place where it is written.
    At(u32),
    /// Where it goes on: it does nothing.
    Next,
    /// After the loop around it: the code begins with a `break`.
    Behind,
    /// At the next turn of the loop around it: the code begins with a `continue`.
    Onward,
}

impl Start {
    // The beginning of code that is `by` operations and jumps further on.
    pub(crate) fn moved(self, by: u32) -> Start
        requires { by + offset self < 2 ^ 32 }
        ensures { result ≡ moved by self }
    {
        match self {
            Start::At(offset) => Start::At(by + offset),
            _ => self,
        }
    }

    // The beginning of a `do` loop: that of its body, given its beginning and extent. If the body
    // does nothing or goes on to the test at once, it is the test after it; if the body leaves the
    // loop at once, it is the code after the whole loop.
    pub(crate) fn round(self, body: u32, whole: u32, rest: Start) -> Start
        requires { whole + offset rest < 2 ^ 32 }
        ensures { result ≡ round self body whole rest }
    {
        match self {
            Start::At(offset) => Start::At(offset),
            Start::Next | Start::Onward => Start::At(body),
            Start::Behind => rest.moved(whole),
        }
    }
}

/// What is known of code before its place is known.
#[derive(Clone, Copy, PartialEq, Eq, Debug)]
pub struct Span {
    /// Whether its first operation is where the code is written.
    pub here: bool,
    /// The number of operations and jumps of its list.
    pub extent: u32,
    pub start: Start,
}

/// The span of code that goes on elsewhere than directly after its list (`far`), and of code that
/// goes on there (`near`).
#[derive(Clone, Copy, PartialEq, Eq, Debug)]
pub struct Spans {
    pub far: Span,
    pub near: Span,
}

impl Spans {
    pub fn of(&self, near: bool) -> Span
        ensures { result ≡ span_in self.now near }
    {
        if near { self.near } else { self.far }
    }
}

// The number of jumps before code that is here, or isn't.
pub(crate) fn gap(here: bool) -> u32
    ensures jumps { result ≡ gap here }
    ensures few { result ≤ 1 }
{
    if here { 0 } else { 1 }
}
