//! The operations of statements.

ghost use Rattle.std.specs.Prelude.{◌≡◌, map, true};
ghost use Rattle.std.specs.Option.{option_map};
ghost use Rattle.fk_syntax.specs.View.{tree_of};
ghost use Rattle.fk_syntax.specs.Program as p;
ghost use Rattle.fk_syntax.specs.Program.{Statement, statements_of};
ghost use Rattle.fk_syntax.specs.ProgramView.{statement_of};
ghost use Rattle.fk_meaning_operation.specs.declared.operation.Operation.TheVariants as o;
ghost use Rattle.fk_meaning_forms.specs.Code as c;
ghost use Rattle.fk_meaning_forms.specs.Expressions as e;
ghost use Rattle.fk_meaning_forms.specs.Expressions.{Coded};
ghost use Rattle.fk_meaning_forms.specs.Statements as s;
ghost use Rattle.fk_layout_walk.specs.Known.{tables_of, functions_of, part_of, IsSound};
ghost use Rattle.fk_layout_walk.specs.Location.{behind_value, ending};
ghost use Rattle.fk_layout_walk.specs.Through.{through, LeadsOn, Passes};
ghost use Rattle.fk_layout_walk.specs.Ways.{behind_first, rejoined};
ghost use Rattle.fk_layout_walk_statements.specs.Inside.{inside_of};
ghost use Rattle.fk_layout_walk_statements.specs.Nested.{part_of_group, loop_of, other_way};
ghost use Rattle.fk_layout_walk_statements.specs.Nested.{behind_if};

use crate::inside::Inside;
use crate::simple::{
    barrier, break_off, count_or_all, declare_all, give_back, go_on, numbers, step, test, test_or,
    used, used_or,
};
use crate::turns::Turns;
use fk_layout_walk::{
    Event, NOWHERE, ProgramTables, Visitor, Ways, agree, choose, end, frame, plain, value,
};
use fk_meaning_operation::{Operation, SplitKind};
use fk_syntax::{Expr, Place, Spot, Stmt};

/// Shows a visitor the operations of a statement in a function. `None` means that nothing follows,
/// because of a call as at [`fk_layout_walk::expression`].
#[cycle(statement)]
pub fn statement<V: Visitor>(
    known: &ProgramTables,
    visitor: &mut V,
    inside: Inside,
    whole: &Stmt,
) -> Option<()>
    requires { IsSound known.now }
    ensures { LeadsOn V.after V.counts (functions_of known.now) visitor.old visitor.new result
        (s.executed (tables_of known.now) (functions_of known.now) (inside_of inside)
        (statement_of whole.now)) }
{
    match whole {
        Stmt::Empty => Some(()),
        Stmt::Expression(expression) => used(known, visitor, expression),
        Stmt::Block(list) => statements(known, visitor, inside, list),
        Stmt::Declare(variables) => declare_all(known, visitor, variables),
        Stmt::If(spot, condition, first, otherwise) => match otherwise {
            Some(second) => {
                let ways = first_way(known, visitor, inside, *spot, first, condition)?;
                second_way(known, visitor, inside, *spot, second, ways)
            }
            None => alone(known, visitor, inside, *spot, first, condition),
        },
        Stmt::While(spot, condition, body) => {
            repeat(known, visitor, inside, *spot, body, Turns::While(condition))
        }
        Stmt::DoWhile(spot, body, condition) => {
            repeat(known, visitor, inside, *spot, body, Turns::Until(condition))
        }
        Stmt::For(spot, before, condition, after, body) => {
            let turns = Turns::For(condition, after);
            count_up(known, visitor, inside, *spot, before, body, turns)
        }
        Stmt::Start(spot, count, body) => start(known, visitor, inside, *spot, count, body),
        Stmt::Fork(spot, parts, part, rank, body) => {
            numbers(known, visitor, parts, part, rank)?;
            let divide = Operation::Split(SplitKind::Fork);
            group(known, visitor, inside, divide, spot.place, *spot, body)
        }
        Stmt::Farm(_, body) => meeting(known, visitor, inside, Operation::Farm, body),
        Stmt::Seq(_, body) => meeting(known, visitor, inside, Operation::Seq, body),
        Stmt::Barrier(_) => barrier(known, visitor),
        Stmt::Break(_) => break_off(known, visitor),
        Stmt::Continue(_) => go_on(known, visitor),
        Stmt::Return(_, given) => give_back(known, visitor, inside, given),
    }
}

/// Shows a visitor the operations of statements in their order. `None` means that nothing follows.
#[cycle(statement)]
pub fn statements<V: Visitor>(
    known: &ProgramTables,
    visitor: &mut V,
    inside: Inside,
    list: &[Stmt],
) -> Option<()>
    requires { IsSound known.now }
    ensures { LeadsOn V.after V.counts (functions_of known.now) visitor.old visitor.new result
        (s.all_executed (tables_of known.now) (functions_of known.now) (inside_of inside)
        (statements_of (map statement_of list.now))) }
{
    for one in list {
        statement(known, visitor, inside, one)?;
    }
    Some(())
}

// A `start`. Only the allocation of its frame has a place.
#[cycle(statement)]
fn start<'s, 't, V: Visitor>(
    known: &ProgramTables,
    visitor: &mut V,
    inside: Inside,
    spot: Spot,
    count: &'s Option<Expr<'t>>,
    body: &'s Stmt<'t>,
) -> Option<()>
    requires { IsSound known.now }
    ensures { LeadsOn V.after V.counts (functions_of known.now) visitor.old visitor.new result
        (s.executed (tables_of known.now) (functions_of known.now) (inside_of inside)
        (p.Start spot (option_map tree_of count.now) (statement_of body.now))) }
{
    count_or_all(known, visitor, count)?;
    let begin = Operation::Begin;
    group(known, visitor, inside, begin, NOWHERE, spot, body)
}

// A statement that is a branch of a choice or the body of a loop. If `ends`, it ends a part.
#[cycle(statement)]
fn way<V: Visitor>(known: &ProgramTables, visitor: &mut V, inside: Inside, body: &Stmt, ends: bool)
    requires { IsSound known.now }
    ensures { visitor.new ≡ through V.after V.counts (functions_of known.now) visitor.old
        (s.executed (tables_of known.now) (functions_of known.now) (inside_of inside)
        (statement_of body.now) (ending ends)) }
{
    if statement(known, visitor, inside, body).is_some() {
        end(visitor, ends);
    }
}

// A statement that is a part of a group.
#[cycle(statement)]
fn part<V: Visitor>(
    known: &ProgramTables,
    visitor: &mut V,
    inside: Inside,
    spot: Spot,
    second: bool,
    body: &Stmt,
)
    requires { IsSound known.now }
    ensures { visitor.new ≡ through V.after V.counts (functions_of known.now) visitor.old
        (part_of_group (tables_of known.now) (functions_of known.now) (inside_of inside) spot
        (part_of second) (statement_of body.now)) }
{
    frame(known, visitor, spot.at, second, spot.place);
    way(known, visitor, inside, body, true);
}

// A part that an operation begins, and the resume after it.
#[cycle(statement)]
fn group<V: Visitor>(
    known: &ProgramTables,
    visitor: &mut V,
    inside: Inside,
    begin: Operation,
    place: Place,
    spot: Spot,
    body: &Stmt,
) -> Option<()>
    requires { IsSound known.now }
    ensures { LeadsOn V.after V.counts (functions_of known.now) visitor.old visitor.new result
        (λ rest. c.choose place begin
        (part_of_group (tables_of known.now) (functions_of known.now) (inside_of inside) spot 0
        (statement_of body.now)) c.done (e.plain o.Resume rest)) }
{
    let before = visitor.mark();
    choose(visitor, begin, place);
    let within = visitor.mark();
    part(known, visitor, inside, spot, false, body);
    let behind = visitor.mark();
    visitor.meet(Event::Aside(within));
    visitor.meet(Event::Joined(before, behind));
    plain(visitor, Operation::Resume);
    Some(())
}

// A statement that an operation either runs or skips.
#[cycle(statement)]
fn apart<V: Visitor>(
    known: &ProgramTables,
    visitor: &mut V,
    inside: Inside,
    begin: Operation,
    body: &Stmt,
)
    requires { IsSound known.now }
    ensures { Passes V.after V.counts (functions_of known.now) visitor.old visitor.new
        (λ rest. c.choose e.nowhere begin
        (s.executed (tables_of known.now) (functions_of known.now) (inside_of inside)
        (statement_of body.now) c.done) c.done rest) }
{
    let before = visitor.mark();
    choose(visitor, begin, NOWHERE);
    let within = visitor.mark();
    way(known, visitor, inside, body, false);
    let behind = visitor.mark();
    visitor.meet(Event::Aside(within));
    visitor.meet(Event::Joined(before, behind));
}

// `farm` or `seq`, by the operation that begins it.
#[cycle(statement)]
fn meeting<V: Visitor>(
    known: &ProgramTables,
    visitor: &mut V,
    inside: Inside,
    begin: Operation,
    body: &Stmt,
) -> Option<()>
    requires { IsSound known.now }
    ensures { LeadsOn V.after V.counts (functions_of known.now) visitor.old visitor.new result
        (λ rest. c.choose e.nowhere begin
        (s.executed (tables_of known.now) (functions_of known.now) (inside_of inside)
        (statement_of body.now) c.done) c.done (e.plain (o.Meet true) rest)) }
{
    apart(known, visitor, inside, begin, body);
    plain(visitor, Operation::Meet(true));
    Some(())
}

// An `if` without `else`. In a synchronous region the group agrees before it branches, or it
// splits.
#[cycle(statement)]
fn alone<'s, 't, V: Visitor>(
    known: &ProgramTables,
    visitor: &mut V,
    inside: Inside,
    spot: Spot,
    first: &'s Stmt<'t>,
    condition: &'s Expr<'t>,
) -> Option<()>
    requires { IsSound known.now }
    ensures { LeadsOn V.after V.counts (functions_of known.now) visitor.old visitor.new result
        (s.executed (tables_of known.now) (functions_of known.now) (inside_of inside)
        (p.If spot (tree_of condition.now) (statement_of first.now))) }
{
    value(known, visitor, condition)?;
    let here = known.note(spot.at);
    if here.splits {
        let divide = Operation::Split(SplitKind::IfAlone);
        group(known, visitor, inside, divide, spot.place, spot, first)
    } else {
        agree(visitor, here.sync);
        apart(known, visitor, inside, Operation::Branch(true), first);
        Some(())
    }
}

// The condition and the first branch of an `if` that has an `else`.
#[cycle(statement)]
fn first_way<'s, 't, V: Visitor>(
    known: &ProgramTables,
    visitor: &mut V,
    inside: Inside,
    spot: Spot,
    first: &'s Stmt<'t>,
    condition: &'s Expr<'t>,
) -> Option<Ways>
    requires { IsSound known.now }
    ensures { (second : Statement) (rest : Coded)
        → through V.after V.counts (functions_of known.now) visitor.old
        (s.executed (tables_of known.now) (functions_of known.now) (inside_of inside)
        (p.IfElse spot (tree_of condition.now) (statement_of first.now) second) rest)
        ≡ behind_if (tables_of known.now) (functions_of known.now) V.after V.counts visitor.new
        result (inside_of inside) spot second rest }
{
    value(known, visitor, condition)?;
    let here = known.note(spot.at);
    if here.splits {
        let before = visitor.mark();
        choose(visitor, Operation::Split(SplitKind::IfElse), spot.place);
        let within = visitor.mark();
        part(known, visitor, inside, spot, false, first);
        let behind = visitor.mark();
        Some(Ways {
            before,
            inside: within,
            behind,
        })
    } else {
        agree(visitor, here.sync);
        let before = visitor.mark();
        choose(visitor, Operation::Branch(true), NOWHERE);
        let within = visitor.mark();
        way(known, visitor, inside, first, false);
        let behind = visitor.mark();
        Some(Ways {
            before,
            inside: within,
            behind,
        })
    }
}

// The second branch of an `if`, and the point where both branches meet.
#[cycle(statement)]
fn second_way<V: Visitor>(
    known: &ProgramTables,
    visitor: &mut V,
    inside: Inside,
    spot: Spot,
    second: &Stmt,
    ways: Ways,
) -> Option<()>
    requires { IsSound known.now }
    ensures { (rest : Coded) → behind_first V.after V.counts (functions_of known.now) visitor.old
        ways (other_way (tables_of known.now) (functions_of known.now) (inside_of inside) spot
        (statement_of second.now)) (rejoined (tables_of known.now) spot rest)
        ≡ through V.after V.counts (functions_of known.now) visitor.new
        (behind_value result rest) }
{
    visitor.meet(Event::Aside(ways.inside));
    if known.note(spot.at).splits {
        part(known, visitor, inside, spot, true, second);
        visitor.meet(Event::Joined(ways.before, ways.behind));
        plain(visitor, Operation::Resume);
        Some(())
    } else {
        way(known, visitor, inside, second, false);
        visitor.meet(Event::Joined(ways.before, ways.behind));
        Some(())
    }
}

// A `for`: its first expression, and then the loop.
#[cycle(statement)]
fn count_up<'s, 't, V: Visitor>(
    known: &ProgramTables,
    visitor: &mut V,
    inside: Inside,
    spot: Spot,
    before: &'s Option<Expr<'t>>,
    body: &'s Stmt<'t>,
    turns: Turns<'s, 't>,
) -> Option<()>
    requires { IsSound known.now }
    ensures { LeadsOn V.after V.counts (functions_of known.now) visitor.old visitor.new result
        (λ rest. s.used_or (tables_of known.now) (functions_of known.now)
        (option_map tree_of before.now) (s.looping (tables_of known.now) (functions_of known.now)
        spot (loop_of (tables_of known.now) (functions_of known.now) spot
        (s.executed (tables_of known.now) (functions_of known.now) (inside_of inside)
        (statement_of body.now) c.done) turns.entry) rest)) }
{
    used_or(known, visitor, before)?;
    repeat(known, visitor, inside, spot, body, turns)
}

// A loop. If a group splits at it, it runs in a part, which each member leaves by itself.
#[cycle(statement)]
fn repeat<'s, 't, V: Visitor>(
    known: &ProgramTables,
    visitor: &mut V,
    inside: Inside,
    spot: Spot,
    body: &'s Stmt<'t>,
    turns: Turns<'s, 't>,
) -> Option<()>
    requires { IsSound known.now }
    ensures { LeadsOn V.after V.counts (functions_of known.now) visitor.old visitor.new result
        (s.looping (tables_of known.now) (functions_of known.now) spot
        (loop_of (tables_of known.now) (functions_of known.now) spot
        (s.executed (tables_of known.now) (functions_of known.now) (inside_of inside)
        (statement_of body.now) c.done) turns.entry)) }
{
    if known.note(spot.at).splits {
        let before = visitor.mark();
        choose(visitor, Operation::Split(SplitKind::Loop), spot.place);
        let within = visitor.mark();
        frame(known, visitor, spot.at, false, spot.place);
        turn(known, visitor, inside, spot, body, turns);
        let behind = visitor.mark();
        visitor.meet(Event::Aside(within));
        visitor.meet(Event::Joined(before, behind));
        plain(visitor, Operation::Resume);
        Some(())
    } else {
        turn(known, visitor, inside, spot, body, turns);
        Some(())
    }
}

// A loop: its test, its body and its step, in the order in which a turn runs them.
#[cycle(statement)]
fn turn<'s, 't, V: Visitor>(
    known: &ProgramTables,
    visitor: &mut V,
    inside: Inside,
    spot: Spot,
    body: &'s Stmt<'t>,
    turns: Turns<'s, 't>,
)
    requires { IsSound known.now }
    ensures { Passes V.after V.counts (functions_of known.now) visitor.old visitor.new
        (loop_of (tables_of known.now) (functions_of known.now) spot
        (s.executed (tables_of known.now) (functions_of known.now) (inside_of inside)
        (statement_of body.now) c.done) turns.entry) }
{
    match turns {
        Turns::While(condition) => {
            visitor.meet(Event::While);
            test(known, visitor, spot, condition);
            visitor.meet(Event::Part);
            way(known, visitor, inside, body, false);
            visitor.meet(Event::Part);
            visitor.meet(Event::Behind);
        }
        Turns::Until(condition) => {
            visitor.meet(Event::Until);
            way(known, visitor, inside, body, false);
            visitor.meet(Event::Part);
            test(known, visitor, spot, condition);
            visitor.meet(Event::Behind);
        }
        Turns::For(condition, after) => {
            visitor.meet(Event::While);
            test_or(known, visitor, spot, condition);
            visitor.meet(Event::Part);
            way(known, visitor, inside, body, false);
            visitor.meet(Event::Part);
            step(known, visitor, after);
            visitor.meet(Event::Behind);
        }
    }
}
