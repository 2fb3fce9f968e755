//! The operations of expressions.

ghost use Rattle.std.specs.Prelude.{◌≡◌, map, true, if◌then◌else◌};
ghost use Rattle.fk_syntax.specs.Tree.{links_of, suffixes_of, trees_of};
ghost use Rattle.fk_syntax.specs.View.{tree_of, link_of, suffix_of, named};
ghost use Rattle.fk_syntax.specs.ProgramView.{declared_of};
ghost use Rattle.fk_meaning_forms.specs.Tables as t;
ghost use Rattle.fk_meaning_forms.specs.Texts.{text_of};
ghost use Rattle.fk_meaning_forms.specs.Expressions as e;
ghost use Rattle.fk_meaning_forms.specs.Expressions.{Coded};
ghost use Rattle.fk_layout_walk.specs.Known.{tables_of, functions_of, IsSound};
ghost use Rattle.fk_layout_walk.specs.Location.{location_of, behind_value, ending};
ghost use Rattle.fk_layout_walk.specs.Suffix as s;
ghost use Rattle.fk_layout_walk.specs.Suffix.{one_link, assigned_to, chained, followed};
ghost use Rattle.fk_layout_walk.specs.Through.{through, Leads, LeadsOn};
ghost use Rattle.fk_layout_walk.specs.Ways.{behind_first, other_arm, rejoined};
ghost use Rattle.fk_meaning_operation.specs.declared.operation.Operation.TheVariants as o;

use crate::builtin::{Builtin, builtin_of};
use crate::calls::enter;
use crate::known::{PREDECLARED, ProgramTables};
use crate::location::ResultLocation;
use crate::locations::{
    agree, discard, end, enter_member, fetch, give_address, give_value, is_deep, name, operate,
    put, raise, raise_and_undo,
};
use crate::texts::put_bytes;
use crate::tokens::{suffix_token, token_of};
use crate::types::is_nothing;
use crate::visitor::{Event, NOWHERE, Visitor, Ways, choose, plain};
use fk_meaning_operation::{Multiprefix, Operation, OwnValue as Value, SplitKind, Unary};
use fk_num::Op;
use fk_syntax::{Declared, Expr, Link, Name, Sign, Spot, Suffix};

/// Shows a visitor the operations of an expression, and returns where its result is. It returns
/// `None` if nothing follows: the expression has a call of something that isn't a function, or of a
/// predeclared function with too few arguments. It takes no memory, and time linear in the
/// expression.
#[cycle(expression)]
pub fn expression<'t, V: Visitor>(
    known: &ProgramTables,
    visitor: &mut V,
    whole: &Expr<'t>,
) -> Option<ResultLocation<'t>>
    requires { IsSound known.now }
    ensures { Leads V.after V.counts (functions_of known.now) visitor.old visitor.new result
        (e.evaluated (tables_of known.now) (functions_of known.now) (tree_of whole.now)) }
{
    match whole {
        Expr::Number(_, number, _) => single(known, visitor, Operation::Push(*number)),
        Expr::Sizeof(spot, _) => size_of(known, visitor, spot.at),
        Expr::Puts(_, text) => puts(known, visitor, text),
        Expr::Named(variable) => name(known, visitor, *variable),
        Expr::GroupNumber(_) => single(known, visitor, Operation::Get(Value::GroupNumber)),
        Expr::GroupRank(_) => single(known, visitor, Operation::Get(Value::Rank)),
        Expr::Prefix(spot, sign, operand) => prefix(known, visitor, operand, *spot, *sign),
        Expr::Cast(_, _, operand) => on_list(known, visitor, operand),
        Expr::Chain(first, links) => {
            let location = expression(known, visitor, first)?;
            chain(known, visitor, links, location, token_of(first))
        }
        Expr::Postfix(before, suffixes) => {
            let location = expression(known, visitor, before)?;
            postfix(known, visitor, suffixes, location, token_of(before))
        }
        Expr::Assign(_, sign, target, right) => {
            let location = expression(known, visitor, target)?;
            assign(known, visitor, right, location, token_of(target), *sign)
        }
        Expr::Choose(spot, condition, first, second) => {
            value(known, visitor, condition)?;
            let ways = first_arm(known, visitor, first, *spot);
            second_arm(known, visitor, second, *spot, ways);
            Some(ResultLocation::OnList)
        }
    }
}

/// Shows a visitor the operations of an expression and those that make it a value. `None` means
/// that nothing follows.
#[cycle(expression)]
pub fn value<V: Visitor>(known: &ProgramTables, visitor: &mut V, whole: &Expr) -> Option<()>
    requires { IsSound known.now }
    ensures { LeadsOn V.after V.counts (functions_of known.now) visitor.old visitor.new result
        (e.value (tables_of known.now) (functions_of known.now) (tree_of whole.now)) }
{
    let location = expression(known, visitor, whole)?;
    give_value(known, visitor, location);
    Some(())
}

// An expression with a sign in front.
#[cycle(expression)]
fn prefix<'t, V: Visitor>(
    known: &ProgramTables,
    visitor: &mut V,
    operand: &Expr<'t>,
    spot: Spot,
    sign: Sign,
) -> Option<ResultLocation<'t>>
    requires { IsSound known.now }
    ensures { Leads V.after V.counts (functions_of known.now) visitor.old visitor.new result
        (e.prefixed (tables_of known.now) (functions_of known.now) spot sign
        (e.evaluated (tables_of known.now) (functions_of known.now) (tree_of operand.now))
        (e.token (tree_of operand.now))) }
{
    match sign {
        Sign::Minus => unary(known, visitor, operand, Unary::Negate),
        Sign::Tilde => unary(known, visitor, operand, Unary::Complement),
        Sign::Exclamation => unary(known, visitor, operand, Unary::Not),
        Sign::Star => dereference(known, visitor, operand, spot),
        Sign::Ampersand => address_of(known, visitor, operand),
        Sign::Increment => increase(known, visitor, operand, Sign::Plus, spot),
        Sign::Decrement => increase(known, visitor, operand, Sign::Minus, spot),
        _ => on_list(known, visitor, operand),
    }
}

// A sign or a cast that adds no operation to the value of its operand.
#[cycle(expression)]
fn on_list<'t, V: Visitor>(
    known: &ProgramTables,
    visitor: &mut V,
    operand: &Expr<'t>,
) -> Option<ResultLocation<'t>>
    requires { IsSound known.now }
    ensures { Leads V.after V.counts (functions_of known.now) visitor.old visitor.new result
        (λ k. e.value (tables_of known.now) (functions_of known.now) (tree_of operand.now)
        (k e.OnList)) }
{
    value(known, visitor, operand)?;
    Some(ResultLocation::OnList)
}

// `*`: the value becomes an address.
#[cycle(expression)]
fn dereference<'t, V: Visitor>(
    known: &ProgramTables,
    visitor: &mut V,
    operand: &Expr<'t>,
    spot: Spot,
) -> Option<ResultLocation<'t>>
    requires { IsSound known.now }
    ensures { Leads V.after V.counts (functions_of known.now) visitor.old visitor.new result
        (λ k. e.value (tables_of known.now) (functions_of known.now) (tree_of operand.now)
        (k (e.AtAddress true spot))) }
{
    value(known, visitor, operand)?;
    Some(ResultLocation::AtAddress(true, spot))
}

// `&`: the address becomes a value.
#[cycle(expression)]
fn address_of<'t, V: Visitor>(
    known: &ProgramTables,
    visitor: &mut V,
    operand: &Expr<'t>,
) -> Option<ResultLocation<'t>>
    requires { IsSound known.now }
    ensures { Leads V.after V.counts (functions_of known.now) visitor.old visitor.new result
        (λ k. e.evaluated (tables_of known.now) (functions_of known.now) (tree_of operand.now)
        (λ s. e.addressed (tables_of known.now) (functions_of known.now) s (k e.OnList))) }
{
    let location = expression(known, visitor, operand)?;
    give_address(known, visitor, location);
    Some(ResultLocation::OnList)
}

// One operation that leaves a value.
fn single<'t, V: Visitor>(
    known: &ProgramTables,
    visitor: &mut V,
    operation: Operation,
) -> Option<ResultLocation<'t>>
    ensures { Leads V.after V.counts (functions_of known.now) visitor.old visitor.new result
        (λ k. e.plain operation (k e.OnList)) }
{
    plain(visitor, operation);
    Some(ResultLocation::OnList)
}

// `sizeof`: pushes the number in the note of its token.
fn size_of<'t, V: Visitor>(
    known: &ProgramTables,
    visitor: &mut V,
    at: u32,
) -> Option<ResultLocation<'t>>
    ensures { Leads V.after V.counts (functions_of known.now) visitor.old visitor.new result
        (λ k. e.plain (o.Push (t.note (tables_of known.now) at).binding) (k e.OnList)) }
{
    single(known, visitor, Operation::Push(known.note(at).binding))
}

// `puts`: prints the bytes of a text.
fn puts<'t, V: Visitor>(
    known: &ProgramTables,
    visitor: &mut V,
    text: &[u8],
) -> Option<ResultLocation<'t>>
    ensures { Leads V.after V.counts (functions_of known.now) visitor.old visitor.new result
        (λ k. e.put_bytes (text_of text.now) (k e.OnList)) }
{
    put_bytes(known, visitor, text);
    Some(ResultLocation::OnList)
}

// A sign in front that is one operation on a value.
#[cycle(expression)]
fn unary<'t, V: Visitor>(
    known: &ProgramTables,
    visitor: &mut V,
    operand: &Expr<'t>,
    by: Unary,
) -> Option<ResultLocation<'t>>
    requires { IsSound known.now }
    ensures { Leads V.after V.counts (functions_of known.now) visitor.old visitor.new result
        (λ k. e.value (tables_of known.now) (functions_of known.now) (tree_of operand.now)
        (e.plain (o.Apply by) (k e.OnList))) }
{
    value(known, visitor, operand)?;
    single(known, visitor, Operation::Apply(by))
}

// `++` or `--` in front: the sum or difference with 1 is assigned.
#[cycle(expression)]
fn increase<'t, V: Visitor>(
    known: &ProgramTables,
    visitor: &mut V,
    operand: &Expr<'t>,
    sign: Sign,
    spot: Spot,
) -> Option<ResultLocation<'t>>
    requires { IsSound known.now }
    ensures { Leads V.after V.counts (functions_of known.now) visitor.old visitor.new result
        (e.updated (tables_of known.now) (functions_of known.now) sign
        (e.evaluated (tables_of known.now) (functions_of known.now) (tree_of operand.now))
        (e.token (tree_of operand.now)) spot.at
        (e.one (tables_of known.now) (functions_of known.now))) }
{
    let location = expression(known, visitor, operand)?;
    raise(known, visitor, sign, location, token_of(operand), spot.at);
    Some(ResultLocation::OnList)
}

// The links of a chain, after the first expression. `at` is the token of that expression.
#[cycle(expression)]
fn chain<'t, V: Visitor>(
    known: &ProgramTables,
    visitor: &mut V,
    links: &[Link<'t>],
    first: ResultLocation<'t>,
    at: u32,
) -> Option<ResultLocation<'t>>
    requires { IsSound known.now }
    ensures { Leads V.after V.counts (functions_of known.now) visitor.old visitor.new result
        (chained (tables_of known.now) (functions_of known.now) (location_of first.entry) at
        (links_of (map link_of links.now))) }
{
    let mut location = first;
    let mut left = at;
    for link in links {
        location = join(known, visitor, link, location, left)?;
        left = link.spot.at;
    }
    Some(location)
}

// One link of a chain, after the operations of its left side.
#[cycle(expression)]
fn join<'t, V: Visitor>(
    known: &ProgramTables,
    visitor: &mut V,
    link: &Link<'t>,
    left: ResultLocation<'t>,
    at: u32,
) -> Option<ResultLocation<'t>>
    requires { IsSound known.now }
    ensures { Leads V.after V.counts (functions_of known.now) visitor.old visitor.new result
        (one_link (tables_of known.now) (functions_of known.now) (location_of left.entry) at
        (link_of link.now).spot (link_of link.now).sign (link_of link.now).right) }
{
    match link.sign {
        Sign::Comma => {
            give_value(known, visitor, left);
            discard(known, visitor, at);
            value(known, visitor, &link.right)?;
            Some(ResultLocation::OnList)
        }
        Sign::AndAnd => {
            logical(
                known,
                visitor,
                &link.right,
                left,
                link.spot,
                SplitKind::AndThen,
                true,
            );
            Some(ResultLocation::OnList)
        }
        Sign::OrOr => {
            logical(
                known,
                visitor,
                &link.right,
                left,
                link.spot,
                SplitKind::OrElse,
                false,
            );
            Some(ResultLocation::OnList)
        }
        _ => {
            give_value(known, visitor, left);
            value(known, visitor, &link.right)?;
            operate(known, visitor, link.sign, at, token_of(&link.right));
            Some(ResultLocation::OnList)
        }
    }
}

// `&&` or `||`, after the operations of its left side. In a synchronous region the group agrees
// before it branches, or it splits.
#[cycle(expression)]
fn logical<'t, V: Visitor>(
    known: &ProgramTables,
    visitor: &mut V,
    right: &Expr<'t>,
    left: ResultLocation<'t>,
    spot: Spot,
    split: SplitKind,
    onward: bool,
)
    requires { IsSound known.now }
    ensures { (k : e.ResultLocation → Coded)
        → through V.after V.counts (functions_of known.now) visitor.old
        (e.logical (tables_of known.now) (functions_of known.now) spot split onward
        (if onward then 0 else 1)
        (λ j. j (location_of left.entry))
        (e.evaluated (tables_of known.now) (functions_of known.now) (tree_of right.now)) k)
        ≡ through V.after V.counts (functions_of known.now) visitor.new (k e.OnList) }
{
    give_value(known, visitor, left);
    let here = known.note(spot.at);
    if here.splits {
        let before = visitor.mark();
        choose(visitor, Operation::Split(split), spot.place);
        let inside = visitor.mark();
        truth(known, visitor, right, true);
        let behind = visitor.mark();
        visitor.meet(Event::Aside(inside));
        visitor.meet(Event::Joined(before, behind));
        plain(visitor, Operation::Resume);
    } else {
        agree(visitor, here.sync);
        let before = visitor.mark();
        choose(visitor, Operation::Branch(onward), NOWHERE);
        let inside = visitor.mark();
        truth(known, visitor, right, false);
        let behind = visitor.mark();
        visitor.meet(Event::Aside(inside));
        plain(visitor, Operation::Push(other_value(onward)));
        visitor.meet(Event::Joined(before, behind));
    }
}

// The value of `&&` or `||` if the right side is skipped.
fn other_value(onward: bool) -> u32
    ensures { result ≡ (if onward then 0 else 1) }
{
    if onward { 0 } else { 1 }
}

// The right side of `&&` or `||`, whose value becomes 0 or 1. If `ends`, it ends a part of a split.
#[cycle(expression)]
fn truth<V: Visitor>(known: &ProgramTables, visitor: &mut V, right: &Expr, ends: bool)
    requires { IsSound known.now }
    ensures { visitor.new ≡ through V.after V.counts (functions_of known.now) visitor.old
        (e.truth (tables_of known.now) (functions_of known.now)
        (e.evaluated (tables_of known.now) (functions_of known.now) (tree_of right.now))
        (ending ends)) }
{
    if value(known, visitor, right).is_some() {
        plain(visitor, Operation::Push(0));
        plain(visitor, Operation::Binary(Op::Ne, false));
        end(visitor, ends);
    }
}

// One of the two values of `?:`. If `ends`, it ends a part of a split.
#[cycle(expression)]
fn arm<V: Visitor>(known: &ProgramTables, visitor: &mut V, whole: &Expr, ends: bool)
    requires { IsSound known.now }
    ensures { visitor.new ≡ through V.after V.counts (functions_of known.now) visitor.old
        (e.value (tables_of known.now) (functions_of known.now) (tree_of whole.now)
        (ending ends)) }
{
    if value(known, visitor, whole).is_some() {
        end(visitor, ends);
    }
}

// The first of the two values of `?:`, after the condition. In a synchronous region the group
// agrees before it branches, or it splits.
#[cycle(expression)]
fn first_arm<V: Visitor>(known: &ProgramTables, visitor: &mut V, first: &Expr, spot: Spot) -> Ways
    requires { IsSound known.now }
    ensures { (second : e.Evaluation) (k : e.ResultLocation → Coded)
        → through V.after V.counts (functions_of known.now) visitor.old
        (e.chosen (tables_of known.now) (functions_of known.now) spot (λ j. j e.OnList)
        (e.evaluated (tables_of known.now) (functions_of known.now) (tree_of first.now)) second k)
        ≡ behind_first V.after V.counts (functions_of known.now) visitor.new result
        (other_arm (tables_of known.now) (functions_of known.now) spot second)
        (rejoined (tables_of known.now) spot (k e.OnList)) }
{
    let here = known.note(spot.at);
    if here.splits {
        let before = visitor.mark();
        choose(visitor, Operation::Split(SplitKind::IfElse), spot.place);
        let inside = visitor.mark();
        arm(known, visitor, first, true);
        let behind = visitor.mark();
        Ways {
            before,
            inside,
            behind,
        }
    } else {
        agree(visitor, here.sync);
        let before = visitor.mark();
        choose(visitor, Operation::Branch(true), NOWHERE);
        let inside = visitor.mark();
        arm(known, visitor, first, false);
        let behind = visitor.mark();
        Ways {
            before,
            inside,
            behind,
        }
    }
}

// The second value of `?:`, and the point where both branches meet.
#[cycle(expression)]
fn second_arm<V: Visitor>(
    known: &ProgramTables,
    visitor: &mut V,
    second: &Expr,
    spot: Spot,
    ways: Ways,
)
    requires { IsSound known.now }
    ensures { (rest : Coded) → behind_first V.after V.counts (functions_of known.now) visitor.old
        ways (other_arm (tables_of known.now) (functions_of known.now) spot
        (e.evaluated (tables_of known.now) (functions_of known.now) (tree_of second.now)))
        (rejoined (tables_of known.now) spot rest)
        ≡ through V.after V.counts (functions_of known.now) visitor.new rest }
{
    visitor.meet(Event::Aside(ways.inside));
    if known.note(spot.at).splits {
        arm(known, visitor, second, true);
        visitor.meet(Event::Joined(ways.before, ways.behind));
        plain(visitor, Operation::Resume);
    } else {
        arm(known, visitor, second, false);
        visitor.meet(Event::Joined(ways.before, ways.behind));
    }
}

// An assignment, after the operations of its target.
#[cycle(expression)]
#[tactic(auto, unfolding(crate::specs::Suffix::assigned_to))]
fn assign<'t, V: Visitor>(
    known: &ProgramTables,
    visitor: &mut V,
    right: &Expr<'t>,
    target: ResultLocation<'t>,
    at: u32,
    sign: Sign,
) -> Option<ResultLocation<'t>>
    requires { IsSound known.now }
    ensures { Leads V.after V.counts (functions_of known.now) visitor.old visitor.new result
        (assigned_to (tables_of known.now) (functions_of known.now) (location_of target.entry) at
        sign (tree_of right.now)) }
{
    match sign {
        Sign::Assign => {
            give_address(known, visitor, target);
            value(known, visitor, right)?;
            put(known, visitor, target);
            Some(ResultLocation::OnList)
        }
        _ => {
            fetch(known, visitor, target);
            value(known, visitor, right)?;
            operate(known, visitor, sign, at, token_of(right));
            put(known, visitor, target);
            Some(ResultLocation::OnList)
        }
    }
}

// The suffixes of an expression, after its operations. `at` is its token.
#[cycle(expression)]
#[tactic(auto, using(crate::proofs::Stepwise::followed_step))]
fn postfix<'t, V: Visitor>(
    known: &ProgramTables,
    visitor: &mut V,
    suffixes: &[Suffix<'t>],
    whole: ResultLocation<'t>,
    at: u32,
) -> Option<ResultLocation<'t>>
    requires { IsSound known.now }
    ensures { Leads V.after V.counts (functions_of known.now) visitor.old visitor.new result
        (followed (tables_of known.now) (functions_of known.now) (location_of whole.entry) at
        (suffixes_of (map suffix_of suffixes.now))) }
{
    let mut location = whole;
    let mut left = at;
    for suffix in suffixes {
        location = one_suffix(known, visitor, suffix, location, left)?;
        left = suffix_token(suffix);
    }
    Some(location)
}

// One suffix, after the operations of what it follows.
#[cycle(expression)]
fn one_suffix<'t, V: Visitor>(
    known: &ProgramTables,
    visitor: &mut V,
    suffix: &Suffix<'t>,
    location: ResultLocation<'t>,
    at: u32,
) -> Option<ResultLocation<'t>>
    requires { IsSound known.now }
    ensures { Leads V.after V.counts (functions_of known.now) visitor.old visitor.new result
        (s.one_suffix (tables_of known.now) (functions_of known.now) (location_of location.entry) at
        (suffix_of suffix.now)) }
{
    match suffix {
        Suffix::Index(spot, by) => {
            give_value(known, visitor, location);
            value(known, visitor, by)?;
            let element = Operation::Index(known.bytes_at(spot.at));
            visitor.meet(Event::Perform(element, NOWHERE));
            Some(ResultLocation::AtAddress(true, *spot))
        }
        Suffix::Call(_, arguments) => call(known, visitor, arguments, location),
        Suffix::Dot(spot, member) => {
            enter_member(known, visitor, member.at);
            Some(ResultLocation::AtAddress(is_deep(location), *spot))
        }
        Suffix::Arrow(spot, member) => {
            give_value(known, visitor, location);
            enter_member(known, visitor, member.at);
            Some(ResultLocation::AtAddress(true, *spot))
        }
        Suffix::Up(_) => {
            raise_and_undo(known, visitor, Sign::Plus, Sign::Minus, location, at);
            Some(ResultLocation::OnList)
        }
        Suffix::Down(_) => {
            raise_and_undo(known, visitor, Sign::Minus, Sign::Plus, location, at);
            Some(ResultLocation::OnList)
        }
    }
}

// A call of the expression before the arguments. Nothing follows if that isn't the name of a
// function.
#[cycle(expression)]
fn call<'t, V: Visitor>(
    known: &ProgramTables,
    visitor: &mut V,
    arguments: &[Expr<'t>],
    location: ResultLocation<'t>,
) -> Option<ResultLocation<'t>>
    requires { IsSound known.now }
    ensures { Leads V.after V.counts (functions_of known.now) visitor.old visitor.new result
        (λ k. e.calling (tables_of known.now) (functions_of known.now)
        (e.all_evaluated (tables_of known.now) (functions_of known.now)
        (trees_of (map tree_of arguments.now))) k (location_of location.entry)) }
{
    match location {
        ResultLocation::ToCall(name) => {
            let binding = known.note(name.at).binding;
            if binding == PREDECLARED {
                call_predeclared(known, visitor, arguments, name)
            } else {
                call_declared(known, visitor, arguments, name, binding)
            }
        }
        _ => None,
    }
}

// A call of a function that the text declares.
#[cycle(expression)]
fn call_declared<'t, V: Visitor>(
    known: &ProgramTables,
    visitor: &mut V,
    arguments: &[Expr<'t>],
    name: Name<'t>,
    binding: u32,
) -> Option<ResultLocation<'t>>
    requires sound { IsSound known.now }
    requires binding { (t.note (tables_of known.now) name.at).binding ≡ binding }
    ensures { Leads V.after V.counts (functions_of known.now) visitor.old visitor.new result
        (e.called (tables_of known.now) (functions_of known.now) (named name.entry)
        (e.all_evaluated (tables_of known.now) (functions_of known.now)
        (trees_of (map tree_of arguments.now)))) }
{
    match known.callee(binding) {
        Some(function) => {
            argue(known, visitor, arguments, &function.params)?;
            let void = is_nothing(&function.result);
            enter(
                known,
                visitor,
                name.place,
                binding,
                function.name.at,
                &function.params,
                void,
            );
            Some(ResultLocation::OnList)
        }
        None => {
            enter(known, visitor, name.place, binding, 0, &[], true);
            Some(ResultLocation::OnList)
        }
    }
}

// The arguments of a call. The group agrees on those for `sh` parameters.
#[cycle(expression)]
#[tactic(auto, using(crate::proofs::Arguments::no_parameters))]
fn argue<V: Visitor>(
    known: &ProgramTables,
    visitor: &mut V,
    arguments: &[Expr],
    parameters: &[Declared],
) -> Option<()>
    requires { IsSound known.now }
    ensures { LeadsOn V.after V.counts (functions_of known.now) visitor.old visitor.new result
        (e.arguments (tables_of known.now) (functions_of known.now)
        (map declared_of parameters.now)
        (e.all_evaluated (tables_of known.now) (functions_of known.now)
        (trees_of (map tree_of arguments.now)))) }
{
    for (index, argument) in arguments.iter().enumerate() {
        let Some(parameter) = parameters.get(index) else {
            return Some(());
        };
        value(known, visitor, argument)?;
        agree(visitor, parameter.shared);
    }
    Some(())
}

// A call of a predeclared function.
#[cycle(expression)]
fn call_predeclared<'t, V: Visitor>(
    known: &ProgramTables,
    visitor: &mut V,
    arguments: &[Expr<'t>],
    name: Name<'t>,
) -> Option<ResultLocation<'t>>
    requires { IsSound known.now }
    ensures { Leads V.after V.counts (functions_of known.now) visitor.old visitor.new result
        (e.called_predeclared (tables_of known.now) (functions_of known.now) (named name.entry)
        (e.all_evaluated (tables_of known.now) (functions_of known.now)
        (trees_of (map tree_of arguments.now)))) }
{
    match builtin_of(name.bytes) {
        Builtin::Multiprefix(by) => multiprefix(known, visitor, arguments, name, by),
        Builtin::GroupSize => single(known, visitor, Operation::Get(Value::GroupSize)),
        Builtin::OnOne(agreed, operation) => {
            with_one(known, visitor, arguments, agreed, operation)
        }
    }
}

// A multiprefix. Nothing follows if it has too few arguments.
#[cycle(expression)]
#[tactic(auto, using(crate::proofs::Arguments::too_few))]
fn multiprefix<'t, V: Visitor>(
    known: &ProgramTables,
    visitor: &mut V,
    arguments: &[Expr<'t>],
    name: Name<'t>,
    by: Multiprefix,
) -> Option<ResultLocation<'t>>
    requires { IsSound known.now }
    ensures { Leads V.after V.counts (functions_of known.now) visitor.old visitor.new result
        (e.multiprefix (tables_of known.now) (functions_of known.now) (named name.entry) by
        (e.all_evaluated (tables_of known.now) (functions_of known.now)
        (trees_of (map tree_of arguments.now)))) }
{
    let [address, operand, ..] = arguments else {
        return None;
    };
    value(known, visitor, address)?;
    visitor.meet(Event::Perform(Operation::Check(true), name.place));
    value(known, visitor, operand)?;
    plain(visitor, Operation::Combine(by));
    Some(ResultLocation::OnList)
}

// An operation on one argument, on which the group agrees first if `agreed`. Nothing follows if
// there is no argument.
#[cycle(expression)]
fn with_one<'t, V: Visitor>(
    known: &ProgramTables,
    visitor: &mut V,
    arguments: &[Expr<'t>],
    agreed: bool,
    operation: Operation,
) -> Option<ResultLocation<'t>>
    requires { IsSound known.now }
    ensures { Leads V.after V.counts (functions_of known.now) visitor.old visitor.new result
        (e.with_one (tables_of known.now) (functions_of known.now)
        (λ rest. e.agreed agreed (e.plain operation rest))
        (e.all_evaluated (tables_of known.now) (functions_of known.now)
        (trees_of (map tree_of arguments.now)))) }
{
    let [argument, ..] = arguments else {
        return None;
    };
    value(known, visitor, argument)?;
    agree(visitor, agreed);
    plain(visitor, operation);
    Some(ResultLocation::OnList)
}
