//! Statements that contain no others, and the heads of those that do.

ghost use Rattle.std.specs.Prelude.{◌≡◌, map, true, false, if◌then◌else◌};
ghost use Rattle.std.specs.Option.{option_map};
ghost use Rattle.fk_syntax.specs.View.{tree_of};
ghost use Rattle.fk_syntax.specs.ProgramView.{declared_of};
ghost use Rattle.fk_meaning_operation.specs.declared.operation.Operation.TheVariants as o;
ghost use Rattle.fk_meaning_operation.specs.declared.operation.OwnValue.TheVariants as n;
ghost use Rattle.fk_meaning_forms.specs.Code as c;
ghost use Rattle.fk_meaning_forms.specs.Tables as t;
ghost use Rattle.fk_meaning_forms.specs.Expressions as e;
ghost use Rattle.fk_meaning_forms.specs.Statements as s;
ghost use Rattle.fk_layout_walk.specs.Known.{tables_of, functions_of, IsSound};
ghost use Rattle.fk_layout_walk.specs.Through.{through, LeadsOn, Passes};
ghost use Rattle.fk_layout_walk_statements.specs.Inside.{inside_of};

use crate::inside::Inside;
use crate::types::is_scalar;
use fk_layout_walk::{
    Event, NOWHERE, ProgramTables, Visitor, agree, discard, ends, give_address, name, plain, put,
    token_of, value,
};
use fk_meaning_operation::{Operation, OwnValue as Value};
use fk_syntax::{Declared, Expr, Spot};

/// An expression used as a statement.
pub(crate) fn used<V: Visitor>(known: &ProgramTables, visitor: &mut V, whole: &Expr) -> Option<()>
    requires { IsSound known.now }
    ensures { LeadsOn V.after V.counts (functions_of known.now) visitor.old visitor.new result
        (s.used (tables_of known.now) (functions_of known.now) (tree_of whole.now)) }
{
    value(known, visitor, whole)?;
    discard(known, visitor, token_of(whole));
    Some(())
}

/// An expression used as a statement, which may be absent.
pub(crate) fn used_or<V: Visitor>(
    known: &ProgramTables,
    visitor: &mut V,
    whole: &Option<Expr>,
) -> Option<()>
    requires { IsSound known.now }
    ensures { LeadsOn V.after V.counts (functions_of known.now) visitor.old visitor.new result
        (s.used_or (tables_of known.now) (functions_of known.now) (option_map tree_of whole.now)) }
{
    match whole {
        Some(whole) => used(known, visitor, whole),
        None => Some(()),
    }
}

/// The step of a `for`, after which its turn ends.
pub(crate) fn step<V: Visitor>(known: &ProgramTables, visitor: &mut V, after: &Option<Expr>)
    requires { IsSound known.now }
    ensures { visitor.new ≡ through V.after V.counts (functions_of known.now) visitor.old
        (s.used_or (tables_of known.now) (functions_of known.now) (option_map tree_of after.now)
        c.done) }
{
    let Some(after) = after else {
        return;
    };
    if value(known, visitor, after).is_some() {
        discard(known, visitor, token_of(after));
    }
}

// A value, or the operation `absent` if there is none.
fn value_or<V: Visitor>(
    known: &ProgramTables,
    visitor: &mut V,
    absent: Operation,
    whole: &Option<Expr>,
) -> Option<()>
    requires { IsSound known.now }
    ensures { LeadsOn V.after V.counts (functions_of known.now) visitor.old visitor.new result
        (s.value_or (tables_of known.now) (functions_of known.now) (e.plain absent)
        (option_map tree_of whole.now)) }
{
    match whole {
        Some(whole) => value(known, visitor, whole),
        None => {
            plain(visitor, absent);
            Some(())
        }
    }
}

// A declared scalar gets its initial value, or 0. Arrays and structs keep what their words hold.
fn declare<V: Visitor>(known: &ProgramTables, visitor: &mut V, declared: &Declared) -> Option<()>
    requires { IsSound known.now }
    ensures { LeadsOn V.after V.counts (functions_of known.now) visitor.old visitor.new result
        (s.declared (tables_of known.now) (functions_of known.now) (declared_of declared.now)) }
{
    if !is_scalar(declared) {
        return Some(());
    }
    let location = name(known, visitor, declared.name)?;
    give_address(known, visitor, location);
    value_or(known, visitor, Operation::Push(0), &declared.first)?;
    put(known, visitor, location);
    plain(visitor, Operation::DropLast);
    Some(())
}

/// Declarations, in their order.
pub(crate) fn declare_all<V: Visitor>(
    known: &ProgramTables,
    visitor: &mut V,
    variables: &[Declared],
) -> Option<()>
    requires { IsSound known.now }
    ensures { LeadsOn V.after V.counts (functions_of known.now) visitor.old visitor.new result
        (s.all_declared (tables_of known.now) (functions_of known.now)
        (map declared_of variables.now)) }
{
    for variable in variables {
        declare(known, visitor, variable)?;
    }
    Some(())
}

// The operation that goes on in a loop or leaves it, by the condition.
fn leave_loop<V: Visitor>(known: &ProgramTables, visitor: &mut V, spot: Spot)
    ensures { visitor.new ≡ through V.after V.counts (functions_of known.now) visitor.old
        (s.leaving (tables_of known.now) (functions_of known.now)
        (t.note (tables_of known.now) spot.at)) }
{
    let here = known.note(spot.at);
    if here.splits {
        visitor.meet(Event::Quit(Operation::Shrink, NOWHERE));
    } else {
        agree(visitor, here.sync);
        visitor.meet(Event::Quit(Operation::Branch(true), NOWHERE));
    }
}

/// The condition of a loop, and the operation that leaves the loop by it.
pub(crate) fn test<V: Visitor>(known: &ProgramTables, visitor: &mut V, spot: Spot, condition: &Expr)
    requires { IsSound known.now }
    ensures { visitor.new ≡ through V.after V.counts (functions_of known.now) visitor.old
        (s.tested (tables_of known.now) (functions_of known.now) spot
        (Some (tree_of condition.now))) }
{
    if value(known, visitor, condition).is_some() {
        leave_loop(known, visitor, spot);
    }
}

/// The condition of a `for`. An absent one counts as 1.
pub(crate) fn test_or<V: Visitor>(
    known: &ProgramTables,
    visitor: &mut V,
    spot: Spot,
    condition: &Option<Expr>,
)
    requires { IsSound known.now }
    ensures { visitor.new ≡ through V.after V.counts (functions_of known.now) visitor.old
        (s.tested (tables_of known.now) (functions_of known.now) spot
        (option_map tree_of condition.now)) }
{
    match condition {
        Some(condition) => test(known, visitor, spot, condition),
        None => {
            plain(visitor, Operation::Push(1));
            leave_loop(known, visitor, spot);
        }
    }
}

/// The count of a `start`. An absent one is the number of all processors.
pub(crate) fn count_or_all<V: Visitor>(
    known: &ProgramTables,
    visitor: &mut V,
    count: &Option<Expr>,
) -> Option<()>
    requires { IsSound known.now }
    ensures { LeadsOn V.after V.counts (functions_of known.now) visitor.old visitor.new result
        (s.value_or (tables_of known.now) (functions_of known.now)
        (e.plain (o.Get n.Processors)) (option_map tree_of count.now)) }
{
    value_or(known, visitor, Operation::Get(Value::Processors), count)
}

/// The numbers of a `fork`: the number of parts, the part that the processor enters, and its rank
/// there. An absent rank is the processor's present rank.
pub(crate) fn numbers<'s, 't, V: Visitor>(
    known: &ProgramTables,
    visitor: &mut V,
    parts: &'s Expr<'t>,
    part: &'s Expr<'t>,
    rank: &'s Option<Expr<'t>>,
) -> Option<()>
    requires { IsSound known.now }
    ensures { LeadsOn V.after V.counts (functions_of known.now) visitor.old visitor.new result
        (λ rest. e.value (tables_of known.now) (functions_of known.now) (tree_of parts.now)
        (e.plain o.Agree
        (e.value (tables_of known.now) (functions_of known.now) (tree_of part.now)
        (s.value_or (tables_of known.now) (functions_of known.now) (e.plain (o.Get n.Rank))
        (option_map tree_of rank.now) rest)))) }
{
    value(known, visitor, parts)?;
    plain(visitor, Operation::Agree);
    value(known, visitor, part)?;
    value_or(known, visitor, Operation::Get(Value::Rank), rank)
}

/// `barrier`.
pub(crate) fn barrier<V: Visitor>(known: &ProgramTables, visitor: &mut V) -> Option<()>
    ensures { LeadsOn V.after V.counts (functions_of known.now) visitor.old visitor.new result
        (e.plain (o.Meet false)) }
{
    plain(visitor, Operation::Meet(false));
    Some(())
}

/// `break`.
pub(crate) fn break_off<V: Visitor>(known: &ProgramTables, visitor: &mut V) -> Option<()>
    ensures { LeadsOn V.after V.counts (functions_of known.now) visitor.old visitor.new result
        c.break }
{
    visitor.meet(Event::Break);
    Some(())
}

/// `continue`.
pub(crate) fn go_on<V: Visitor>(known: &ProgramTables, visitor: &mut V) -> Option<()>
    ensures { LeadsOn V.after V.counts (functions_of known.now) visitor.old visitor.new result
        c.continue }
{
    visitor.meet(Event::Continue);
    Some(())
}

// The operation that ends a call, with a value if `gives`; in `main` it is `Halt`.
fn ending_by(inside: Inside, gives: bool) -> Operation
    ensures { result ≡ (if inside.main then o.Halt else o.Leave gives inside.framed) }
{
    if inside.main {
        Operation::Halt
    } else {
        let framed = inside.framed;
        Operation::Leave { gives, framed }
    }
}

// Shows the end of a call.
fn end_call<V: Visitor>(known: &ProgramTables, visitor: &mut V, inside: Inside, gives: bool)
    ensures { Passes V.after V.counts (functions_of known.now) visitor.old visitor.new
        (λ rest. c.ends e.nowhere (if inside.main then o.Halt else o.Leave gives inside.framed)
        rest) }
{
    ends(visitor, ending_by(inside, gives));
}

// The operations of a `return` after its value, which `main` drops.
fn hand_over<V: Visitor>(known: &ProgramTables, visitor: &mut V, inside: Inside)
    ensures { Passes V.after V.counts (functions_of known.now) visitor.old visitor.new
        (λ rest. if inside.main then e.plain o.DropLast (c.ends e.nowhere o.Halt rest)
        else c.ends e.nowhere (o.Leave true inside.framed) rest) }
{
    if inside.main {
        plain(visitor, Operation::DropLast);
        ends(visitor, Operation::Halt);
    } else {
        end_call(known, visitor, inside, true);
    }
}

/// A `return`, with its value if it has one.
pub(crate) fn give_back<V: Visitor>(
    known: &ProgramTables,
    visitor: &mut V,
    inside: Inside,
    given: &Option<Expr>,
) -> Option<()>
    requires { IsSound known.now }
    ensures { LeadsOn V.after V.counts (functions_of known.now) visitor.old visitor.new result
        (s.left_by (tables_of known.now) (functions_of known.now) (inside_of inside)
        (option_map tree_of given.now)) }
{
    match given {
        Some(given) => {
            value(known, visitor, given)?;
            hand_over(known, visitor, inside);
            Some(())
        }
        None => {
            end_call(known, visitor, inside, false);
            Some(())
        }
    }
}

/// The end of a function. A function with a result returns 0 there.
pub(crate) fn finish<V: Visitor>(known: &ProgramTables, visitor: &mut V, inside: Inside, void: bool)
    ensures { visitor.new ≡ through V.after V.counts (functions_of known.now) visitor.old
        (s.end_of (tables_of known.now) (functions_of known.now) (inside_of inside) void) }
{
    if inside.main {
        ends(visitor, Operation::Halt);
    } else if void {
        ends(visitor, ending_by(inside, false));
    } else {
        plain(visitor, Operation::Push(0));
        ends(visitor, ending_by(inside, true));
    }
}
