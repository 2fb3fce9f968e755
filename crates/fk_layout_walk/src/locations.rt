//! How the result of an expression is used.

ghost use Rattle.std.specs.Prelude.{◌≡◌, ◌+◌, ◌*◌, ◌||◌, ℕ, Some, if◌then◌else◌};
ghost use Rattle.fk_syntax.specs.View.{named};
ghost use Rattle.fk_meaning_forms.specs.Expressions as e;
ghost use Rattle.fk_meaning_forms.specs.Signs.{operator_of as operator_by, is_shift as is_a_shift};
ghost use Rattle.fk_meaning_forms.specs.Tables as t;
ghost use Rattle.fk_layout_walk.specs.Known.{tables_of, functions_of};
ghost use Rattle.fk_layout_walk.specs.Shown.{as_word};
ghost use Rattle.fk_layout_walk.specs.Location.{location_of, ending};
ghost use Rattle.fk_meaning_forms.specs.Tables.{Tables};
ghost use Rattle.fk_layout_walk.specs.Through.{through, Leads, Passes};

use crate::known::{PREDECLARED, ProgramTables};
use crate::location::ResultLocation;
use crate::visitor::{Event, NOWHERE, Visitor, plain};
use fk_meaning_forms::{Home, Move, is_shift, move_of, operator_of};
use fk_meaning_operation::{Operation, OwnValue as Value, Unary, Variable};
use fk_num::Op;
use fk_syntax::{Name, Sign, Spot};

// Shows the check of an address that comes from a dereference or an index.
pub(crate) fn check<V: Visitor>(known: &ProgramTables, visitor: &mut V, deep: bool, spot: Spot)
    ensures { Passes V.after V.counts (functions_of known.now) visitor.old visitor.new
        (e.checked (tables_of known.now) (functions_of known.now) deep spot) }
{
    if deep {
        visitor.meet(Event::Perform(Operation::Check(false), spot.place));
    }
}

// Makes the result of an expression a value.
pub(crate) fn give_value<V: Visitor>(
    known: &ProgramTables,
    visitor: &mut V,
    location: ResultLocation,
)
    ensures { Passes V.after V.counts (functions_of known.now) visitor.old visitor.new
        (e.valued (tables_of known.now) (functions_of known.now) (location_of location.entry)) }
{
    match location {
        ResultLocation::AtAddress(deep, spot) => {
            if !known.is_array(spot.at) {
                check(known, visitor, deep, spot);
                plain(visitor, Operation::Read);
            }
        }
        ResultLocation::InWord(variable) => plain(visitor, Operation::Get(Value::Value(variable))),
        ResultLocation::OnList | ResultLocation::ToCall(_) => {}
    }
}

/// Makes the result of an expression an address.
pub fn give_address<V: Visitor>(known: &ProgramTables, visitor: &mut V, location: ResultLocation)
    ensures { Passes V.after V.counts (functions_of known.now) visitor.old visitor.new
        (e.addressed (tables_of known.now) (functions_of known.now) (location_of location.entry)) }
{
    if let ResultLocation::AtAddress(deep, spot) = location {
        check(known, visitor, deep, spot);
    }
}

// Gets the old value of the target of a compound assignment.
pub(crate) fn fetch<V: Visitor>(known: &ProgramTables, visitor: &mut V, location: ResultLocation)
    ensures { Passes V.after V.counts (functions_of known.now) visitor.old visitor.new
        (e.fetched (tables_of known.now) (functions_of known.now) (location_of location.entry)) }
{
    match location {
        ResultLocation::AtAddress(deep, spot) => {
            check(known, visitor, deep, spot);
            plain(visitor, Operation::CopyLast);
            plain(visitor, Operation::Read);
        }
        ResultLocation::InWord(variable) => plain(visitor, Operation::Get(Value::Value(variable))),
        ResultLocation::OnList | ResultLocation::ToCall(_) => {}
    }
}

/// Stores the new value of an assignment's target.
pub fn put<V: Visitor>(known: &ProgramTables, visitor: &mut V, location: ResultLocation)
    ensures { Passes V.after V.counts (functions_of known.now) visitor.old visitor.new
        (e.assigned (tables_of known.now) (functions_of known.now) (location_of location.entry)) }
{
    match location {
        ResultLocation::AtAddress(_, _) => plain(visitor, Operation::Write),
        ResultLocation::InWord(variable) => plain(visitor, Operation::Set(variable)),
        ResultLocation::OnList | ResultLocation::ToCall(_) => {}
    }
}

/// Drops an unused value, unless the type of its token is `void`.
pub fn discard<V: Visitor>(known: &ProgramTables, visitor: &mut V, at: u32)
    ensures { Passes V.after V.counts (functions_of known.now) visitor.old visitor.new
        (e.dropped (tables_of known.now) (functions_of known.now) at) }
{
    if !known.is_void(at) {
        plain(visitor, Operation::DropLast);
    }
}

// The operation of a sign on the values of two tokens, chosen by their types.
fn operator(known: &ProgramTables, sign: Sign, left: u32, right: u32) -> Operation
    ensures { result ≡ operator_by sign (if is_a_shift sign
        then t.is_unsigned (tables_of known.now) left
        else t.is_unsigned (tables_of known.now) left
        || t.is_unsigned (tables_of known.now) right) }
{
    if is_shift(sign) {
        operator_of(sign, known.is_unsigned(left))
    } else {
        let unsigned = known.is_unsigned(left) || known.is_unsigned(right);
        operator_of(sign, unsigned)
    }
}

// Shows the operation that moves a pointer by an index, with steps of `step` bytes. If the sign
// doesn't move a pointer, shows `otherwise`.
fn advance<V: Visitor>(visitor: &mut V, by: Move, step: u32, otherwise: Operation)
    ensures { (functions : (binding : ℕ) → e.Signature)
        → Passes V.after V.counts functions visitor.old visitor.new (e.moved by step otherwise) }
{
    match by {
        Move::Forth => plain(visitor, Operation::Index(step)),
        Move::Back => {
            plain(visitor, Operation::Apply(Unary::Negate));
            plain(visitor, Operation::Index(step));
        }
        Move::NoMove => plain(visitor, otherwise),
    }
}

/// Shows the operator of a sign on the values of two tokens.
pub(crate) fn operate<V: Visitor>(
    known: &ProgramTables,
    visitor: &mut V,
    sign: Sign,
    left: u32,
    right: u32,
)
    ensures { Passes V.after V.counts (functions_of known.now) visitor.old visitor.new
        (e.operate (tables_of known.now) (functions_of known.now) sign left right) }
{
    let operation = operator(known, sign, left, right);
    let step = known.kind_at(left).step;
    if step == 0 {
        plain(visitor, operation);
    } else {
        advance(visitor, move_of(sign), step, operation);
    }
}

// The byte address of a word of shared data; at most 2^32 - 1.
fn global_address(index: u32) -> u32
    ensures { result ≡ as_word (0x10000000 + 4 * index) }
{
    index.saturating_mul(4).saturating_add(0x1000_0000)
}

/// Shows the operations of a variable or another name, and returns where its result is.
pub fn name<'t, V: Visitor>(
    known: &ProgramTables,
    visitor: &mut V,
    name: Name<'t>,
) -> Option<ResultLocation<'t>>
    ensures { Leads V.after V.counts (functions_of known.now) visitor.old visitor.new result
        (e.variable (tables_of known.now) (functions_of known.now) (named name.entry)) }
{
    let binding = known.note(name.at).binding;
    if binding == PREDECLARED {
        return Some(predeclared(known, visitor, name));
    }
    let spot = spot_of(name);
    let slot = known.slot(binding);
    Some(match slot.home {
        Home::Global => {
            let address = Operation::Push(global_address(slot.index));
            visitor.meet(Event::Perform(address, NOWHERE));
            ResultLocation::AtAddress(false, spot)
        }
        Home::FilePrivate => ResultLocation::InWord(Variable::OfFile(slot.index)),
        Home::Private => ResultLocation::InWord(Variable::Private(slot.index)),
        Home::Group(number) => {
            let level = known.region(number).level;
            plain(
                visitor,
                Operation::Get(Value::FrameAddress(level, slot.index)),
            );
            ResultLocation::AtAddress(false, spot)
        }
        Home::NoWord => ResultLocation::ToCall(name),
    })
}

// Shows the operations of a predeclared name, and returns where its result is.
pub(crate) fn predeclared<'t, V: Visitor>(
    known: &ProgramTables,
    visitor: &mut V,
    name: Name<'t>,
) -> ResultLocation<'t>
    ensures { Leads V.after V.counts (functions_of known.now) visitor.old visitor.new (Some result)
        (e.predeclared (tables_of known.now) (functions_of known.now) (named name.entry)) }
{
    if name.bytes == b"__PROC_NR__".as_slice() {
        plain(visitor, Operation::Get(Value::ProcessorNumber));
        ResultLocation::OnList
    } else if name.bytes == b"__STARTED_PROCS__".as_slice() {
        plain(visitor, Operation::Get(Value::Processors));
        ResultLocation::OnList
    } else if name.bytes == b"__inputs".as_slice() {
        plain(visitor, Operation::Get(Value::InputLength));
        ResultLocation::OnList
    } else if name.bytes == b"__input".as_slice() {
        plain(visitor, Operation::Get(Value::InputAddress));
        ResultLocation::AtAddress(false, spot_of(name))
    } else {
        ResultLocation::ToCall(name)
    }
}

// The token of a name and its place.
pub(crate) fn spot_of(name: Name) -> Spot
    ensures { result ≡ e.spot_of (named name.entry) }
{
    Spot {
        at: name.at,
        place: name.place,
    }
}

// `++` or `--`: the sum or difference with 1 is assigned.
pub(crate) fn raise<V: Visitor>(
    known: &ProgramTables,
    visitor: &mut V,
    sign: Sign,
    location: ResultLocation,
    at: u32,
    right: u32,
)
    ensures { Passes V.after V.counts (functions_of known.now) visitor.old visitor.new
        (λ rest. e.updated (tables_of known.now) (functions_of known.now) sign
        (λ j. j (location_of location.entry)) at right
        (e.one (tables_of known.now) (functions_of known.now)) (λ j. rest)) }
{
    fetch(known, visitor, location);
    plain(visitor, Operation::Push(1));
    operate(known, visitor, sign, at, right);
    put(known, visitor, location);
}

// The amount by which a postfix `++` or `--` is undone: 1, or for a pointer the bytes of its step.
fn step_back(known: &ProgramTables, at: u32) -> u32
    ensures { result ≡ e.step_back (tables_of known.now) (functions_of known.now) at }
{
    match known.kind_at(at).step {
        0 => 1,
        step => step,
    }
}

// A postfix `++` or `--`: the prefix form, whose value is then undone by the sign `back`.
pub(crate) fn raise_and_undo<V: Visitor>(
    known: &ProgramTables,
    visitor: &mut V,
    sign: Sign,
    back: Sign,
    location: ResultLocation,
    at: u32,
)
    ensures { Passes V.after V.counts (functions_of known.now) visitor.old visitor.new
        (λ rest. e.raised (tables_of known.now) (functions_of known.now) sign back
        (λ j. j (location_of location.entry)) at (λ j. rest)) }
{
    raise(known, visitor, sign, location, at, 0);
    plain(visitor, Operation::Push(step_back(known, at)));
    plain(visitor, operator_of(back, false));
}

/// Adds the offset of a member to the address of its struct.
pub(crate) fn enter_member<V: Visitor>(known: &ProgramTables, visitor: &mut V, member: u32)
    ensures { Passes V.after V.counts (functions_of known.now) visitor.old visitor.new
        (e.member (tables_of known.now) (functions_of known.now) member) }
{
    let before = Operation::Push(known.bytes_before(member));
    visitor.meet(Event::Perform(before, NOWHERE));
    plain(visitor, Operation::Binary(Op::Add, false));
}

/// Shows the agreement of a group if `sync`.
pub fn agree<V: Visitor>(visitor: &mut V, sync: bool)
    ensures { (functions : (binding : ℕ) → e.Signature)
        → Passes V.after V.counts functions visitor.old visitor.new (e.agreed sync) }
{
    if sync {
        plain(visitor, Operation::Agree);
    }
}

/// Shows the end of a part of a split if `ends`.
pub fn end<V: Visitor>(visitor: &mut V, ends: bool)
    ensures { (functions : (binding : ℕ) → e.Signature)
        → visitor.new ≡ through V.after V.counts functions visitor.old (ending ends) }
{
    if ends {
        plain(visitor, Operation::End);
    }
}

/// Whether an expression is at an address that comes from a dereference or an index.
pub(crate) fn is_deep(location: ResultLocation) -> bool
    ensures { (tables : Tables) (functions : (binding : ℕ) → e.Signature)
        → result ≡ e.is_deep tables functions (location_of location.entry) }
{
    match location {
        ResultLocation::AtAddress(deep, _) => deep,
        ResultLocation::OnList | ResultLocation::InWord(_) | ResultLocation::ToCall(_) => false,
    }
}
