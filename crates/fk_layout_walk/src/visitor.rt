//! The visitor to which a walk shows the code of a program.

ghost use Rattle.std.specs.Prelude.{◌≡◌};
ghost use Rattle.fk_layout_walk.specs.Event.{operation_of};
ghost use Rattle.fk_layout_walk.specs.Shown.{shown};
ghost use Rattle.fk_layout_walk.specs.declared.visitor.Event.TheVariants as v;
ghost use Rattle.fk_meaning_forms.specs.Expressions.{nowhere};

use fk_meaning_operation::Operation;
use fk_syntax::Place;

/// The counts of a visitor at a place in the code.
#[derive(Clone, Copy)]
pub struct Mark {
    /// The number of values of the running call.
    pub values: u64,
    /// The greatest number of values so far.
    pub most: u64,
    /// The number of parts around the place.
    pub nesting: u64,
    /// The greatest number of parts around a place so far.
    pub deepest: u64,
}

/// A choice whose first branch has been shown: the marks before the choice, at the beginning of its
/// branches, and after the first branch.
#[derive(Clone, Copy)]
pub struct Ways {
    pub before: Mark,
    pub inside: Mark,
    pub behind: Mark,
}

/// What a walk shows a visitor. An operation has the numbers of the code; a number that doesn't fit
/// into a word is shown as 2^32 - 1.
#[derive(Clone, Copy)]
pub enum Event {
    /// An operation, with its place. Most have none, which is 0:0.
    Perform(Operation, Place),
    /// An operation that takes one of two branches. The first branch comes next.
    Choose(Operation, Place),
    /// The beginning of the second branch of a choice, with the mark at which the first one began.
    Aside(Mark),
    /// The end of a choice: the marks before the choice and after the first branch.
    Joined(Mark, Mark),
    /// An operation that goes on in its loop, or leaves it.
    Quit(Operation, Place),
    /// A call of the function of a binding. The operations at its beginning come next.
    Call(Operation, Place, u32),
    /// The end of a call: the mark when the call began, and whether the function returns no value.
    Returned(Mark, bool),
    /// An operation that ends the function.
    Ends(Operation, Place),
    /// A loop that begins with its test. Its body and its step come next.
    While,
    /// A loop that begins with its body. Its test comes next.
    Until,
    /// The beginning of the next part of the innermost loop.
    Part,
    /// The end of the innermost loop.
    Behind,
    Break,
    Continue,
}

impl Event {
    /// The operation of an event that has one, with its place.
    pub fn operation(&self) -> Option<(Operation, Place)>
        ensures { result ≡ operation_of self.now }
    {
        match self {
            Event::Perform(operation, place)
            | Event::Choose(operation, place)
            | Event::Quit(operation, place)
            | Event::Call(operation, place, _)
            | Event::Ends(operation, place) => Some((*operation, *place)),
            _ => None,
        }
    }
}

/// What a walk shows code to.
pub trait Visitor {
    ghost use Rattle.fk_layout_walk.specs.declared.visitor.Event.{Event};
    ghost use Rattle.fk_layout_walk.specs.declared.visitor.Mark.{Mark};

    /// The state of the visitor after an event.
    ghost after: { Self → Event → Self };

    /// The mark of a visitor's state.
    ghost counts: { Self → Mark };

    /// Takes note of an event.
    fn meet(&mut self, event: Event)
        ensures { self.new ≡ after self.old event };

    /// The mark at this place.
    fn mark(&self) -> Mark
        ensures { result ≡ counts self.now };
}

/// The place of an operation that can't fault.
pub const NOWHERE: Place = Place { line: 0, column: 0 };

/// Shows an operation with its place.
pub fn perform<V: Visitor>(visitor: &mut V, operation: Operation, place: Place)
    ensures { visitor.new ≡ V.after visitor.old (v.Perform (shown operation) place) }
{
    visitor.meet(Event::Perform(operation, place));
}

/// Shows an operation that has no place.
pub fn plain<V: Visitor>(visitor: &mut V, operation: Operation)
    ensures { visitor.new ≡ V.after visitor.old (v.Perform (shown operation) nowhere) }
{
    perform(visitor, operation, NOWHERE);
}

/// Shows an operation that takes one of two branches.
pub fn choose<V: Visitor>(visitor: &mut V, operation: Operation, place: Place)
    ensures { visitor.new ≡ V.after visitor.old (v.Choose (shown operation) place) }
{
    visitor.meet(Event::Choose(operation, place));
}

/// Shows an operation that ends the function.
pub fn ends<V: Visitor>(visitor: &mut V, operation: Operation)
    ensures { visitor.new ≡ V.after visitor.old (v.Ends (shown operation) nowhere) }
{
    visitor.meet(Event::Ends(operation, NOWHERE));
}
