//! The operations at the beginning of a call.

ghost use Rattle.std.specs.Prelude.{◌≡◌, ◌+◌, ◌∷◌, List, map, length};
ghost use Rattle.fk_syntax.specs.Program.{DeclaredTree};
ghost use Rattle.fk_syntax.specs.ProgramView.{declared_of};
ghost use Rattle.fk_syntax.specs.declared.place.Place.{Place};
ghost use Rattle.fk_meaning_forms.specs.Expressions as e;
ghost use Rattle.fk_meaning_forms.specs.Expressions.{Coded};
ghost use Rattle.fk_meaning_forms.specs.Tables.{frame_at};
ghost use Rattle.fk_meaning_forms.specs.Code as c;
ghost use Rattle.fk_meaning_operation.specs.declared.operation.Operation.TheVariants as o;
ghost use Rattle.fk_layout_walk.specs.Known.{tables_of, functions_of, part_of, IsSound};
ghost use Rattle.fk_layout_walk.specs.Through.{through, Passes};

use crate::known::ProgramTables;
use crate::visitor::{Event, NOWHERE, Visitor, perform, plain};
use fk_meaning_operation::{Operation, OwnValue as Value, Variable};
use fk_syntax::{Declared, Place};

/// Shows the allocation of the group frame of a part of a token, if that frame has words.
pub fn frame<V: Visitor>(
    known: &ProgramTables,
    visitor: &mut V,
    at: u32,
    second: bool,
    place: Place,
)
    requires { IsSound known.now }
    ensures { Passes V.after V.counts (functions_of known.now) visitor.old visitor.new
        (e.framed (tables_of known.now) (functions_of known.now)
        (frame_at (tables_of known.now) at (part_of second)) place) }
{
    if let Some(region) = known.frame_at(at, second) {
        let operation = Operation::Frame {
            nesting: region.level,
            words: region.words,
        };
        perform(visitor, operation, place);
    }
}

// Puts the parameter with this number into the group frame if it is `sh`. A number above 2^32 - 1
// is shown as 2^32 - 1.
fn keep<V: Visitor>(known: &ProgramTables, visitor: &mut V, number: usize, parameter: &Declared)
    ensures { (others : List DeclaredTree)
        → through V.after V.counts (functions_of known.now) visitor.old
        (e.parameters (tables_of known.now) (functions_of known.now) number
        (declared_of parameter.now ∷ others))
        ≡ through V.after V.counts (functions_of known.now) visitor.new
        (e.parameters (tables_of known.now) (functions_of known.now) (number + 1) others) }
{
    if parameter.shared {
        let slot = known.slot(known.note(parameter.name.at).binding);
        plain(visitor, Operation::Get(Value::FrameAddress(0, slot.index)));
        let word = Variable::Private(number.min(u32::MAX as usize) as u32);
        visitor.meet(Event::Perform(Operation::Get(Value::Value(word)), NOWHERE));
        plain(visitor, Operation::Write);
        plain(visitor, Operation::DropLast);
    }
}

// Puts the `sh` parameters into the group frame.
fn fill<V: Visitor>(known: &ProgramTables, visitor: &mut V, parameters: &[Declared])
    ensures { visitor.new ≡ through V.after V.counts (functions_of known.now) visitor.old
        (e.parameters (tables_of known.now) (functions_of known.now) 0
        (map declared_of parameters.now)) }
{
    for (index, parameter) in parameters.iter().enumerate() {
        keep(known, visitor, index, parameter);
    }
}

/// Shows a call of the function of a binding. `at` is the token of its name. Of more than 2^32 - 1
/// parameters the visitor is shown 2^32 - 1.
pub(crate) fn enter<V: Visitor>(
    known: &ProgramTables,
    visitor: &mut V,
    place: Place,
    binding: u32,
    at: u32,
    parameters: &[Declared],
    void: bool,
)
    requires { IsSound known.now }
    ensures { (rest : Coded) → (functions_of known.now binding).void ≡ void
        → through V.after V.counts (functions_of known.now) visitor.old
        (c.call place (o.Enter (length (map declared_of parameters.now))) binding
        (e.framed (tables_of known.now) (functions_of known.now)
        (frame_at (tables_of known.now) at 0) place
        (e.parameters (tables_of known.now) (functions_of known.now) 0
        (map declared_of parameters.now))) rest)
        ≡ through V.after V.counts (functions_of known.now) visitor.new rest }
{
    let count = parameters.len().min(u32::MAX as usize) as u32;
    visitor.meet(Event::Call(Operation::Enter(count), place, binding));
    let entered = visitor.mark();
    frame(known, visitor, at, false, place);
    fill(known, visitor, parameters);
    visitor.meet(Event::Returned(entered, void));
}
