//! The walk over an expression.

ghost use Rattle.std.specs.Prelude.{◌≡◌, List, Option, map, length, slice_get, slice_set};
ghost use Rattle.std.specs.Option.{option_map};
ghost use Rattle.fk_syntax.specs.Tree.{links_of, suffixes_of, trees_of, suffix, no_suffixes};
ghost use Rattle.fk_syntax.specs.View.{tree_of, link_of, suffix_of};
ghost use Rattle.fk_types_structs.specs.Whole.{IsSound};
ghost use Rattle.fk_types_operators.specs.declared.values.ExpressionType as kinds;
ghost use Rattle.fk_types_judgments.specs.Term as m;
ghost use Rattle.fk_types_judgments.specs.Term.{Term, Terms, term_of, with_links, with_suffixes};
ghost use Rattle.fk_types_judgments.specs.Term.{with_arguments, count_of};
ghost use Rattle.fk_types_judgments.specs.Names as n;
ghost use Rattle.fk_types_judgments.specs.Typing.{parameters_of};
ghost use Rattle.fk_types_forms.specs.Scope.{meant_of, parameter_of, env_in};
ghost use Rattle.fk_types_expressions.specs.Read.{IsRead, AreRead};

use fk_syntax::{Expr, Link, Suffix};
use fk_types_forms::forms::{
    also, assign, call, called, cast, choose, counted_after, group_number, index, member, name,
    no_arguments, number, prefix, puts, size, through, with_sign,
};
use fk_types_forms::{Arguments, Parameter, Part, Scope, Thing};
use fk_types_operators::ExpressionType;

// Notes the type of a part at its main token.
fn keep<'a>(types: &mut [Option<ExpressionType>], at: u32, part: Part<'a>) -> Part<'a>
    ensures same { result ≡ part.entry }
    ensures types { types.new ≡ slice_set types.old at part.entry.kind }
{
    let at = at as usize;
    if at < types.len() {
        types[at] = part.kind;
    }
    part
}

/// The part of an expression: its type, and the first fault in it. The types of it and of all
/// expressions in it are noted in a table by token, each at its sign, name or number: at the `(` of
/// a call, the `[` of an index, and the `.` or `->` of a member. It takes no memory, and time
/// linear in the expression.
#[cycle(expression)]
pub fn expression<'a>(
    scope: &Scope,
    types: &mut [Option<ExpressionType>],
    expr: &Expr<'a>,
) -> Part<'a>
    requires { IsSound scope.now.structs.now }
    ensures { IsRead (env_in scope.now) (term_of (tree_of expr.now)) types.old types.new result }
{
    match expr {
        Expr::Number(spot, value, unsigned) => {
            keep(types, spot.at, number(*spot, *value, *unsigned))
        }
        Expr::Puts(spot, _) => keep(types, spot.at, puts(*spot)),
        Expr::Sizeof(spot, kind) => keep(types, spot.at, size(scope, *spot, kind)),
        Expr::Named(named) => keep(types, named.at, name(scope, *named)),
        Expr::GroupNumber(spot) => keep(types, spot.at, group_number(*spot)),
        Expr::GroupRank(spot) => keep(types, spot.at, group_number(*spot)),
        Expr::Prefix(spot, sign, operand) => {
            let operand = expression(scope, types, operand);
            keep(types, spot.at, prefix(*spot, *sign, operand))
        }
        Expr::Cast(spot, kind, operand) => {
            let operand = expression(scope, types, operand);
            keep(types, spot.at, cast(scope, *spot, kind, operand))
        }
        Expr::Chain(first, links) => {
            let first = expression(scope, types, first);
            chain(scope, types, first, links)
        }
        Expr::Postfix(whole, suffixes) => {
            let whole = expression(scope, types, whole);
            postfix(scope, types, whole, suffixes)
        }
        Expr::Assign(spot, sign, place, value) => {
            let place = expression(scope, types, place);
            let value = expression(scope, types, value);
            keep(types, spot.at, assign(*spot, *sign, place, value))
        }
        Expr::Choose(spot, condition, first, second) => {
            let condition = expression(scope, types, condition);
            let first = expression(scope, types, first);
            let second = expression(scope, types, second);
            keep(types, spot.at, choose(*spot, condition, first, second))
        }
    }
}

// The expression before a sign, joined with the sign and its right operand.
#[cycle(expression)]
fn with_link<'a>(
    scope: &Scope,
    types: &mut [Option<ExpressionType>],
    before: Part<'a>,
    link: &Link<'a>,
) -> Part<'a>
    requires { IsSound scope.now.structs.now }
    ensures { (start : List (Option kinds.ExpressionType)) (t : Term)
        → IsRead (env_in scope.now) t start types.old before.entry
        → IsRead (env_in scope.now) (m.joined_term link.now.spot link.now.sign t
        (term_of (tree_of link.now.right))) start types.new result }
{
    let right = expression(scope, types, &link.right);
    keep(
        types,
        link.spot.at,
        with_sign(link.spot, link.sign, before, right),
    )
}

// The expression before signs that group to the left, joined with all of them.
#[cycle(expression)]
fn chain<'a>(
    scope: &Scope,
    types: &mut [Option<ExpressionType>],
    first: Part<'a>,
    links: &[Link<'a>],
) -> Part<'a>
    requires { IsSound scope.now.structs.now }
    ensures { (start : List (Option kinds.ExpressionType)) (t : Term)
        → IsRead (env_in scope.now) t start types.old first.entry
        → IsRead (env_in scope.now) (with_links t (links_of (map link_of links.now)))
        start types.new result }
{
    let mut before = first;
    for link in links {
        before = with_link(scope, types, before, link);
    }
    before
}

// The arguments of a call with one more.
#[cycle(expression)]
fn with_argument<'a>(
    scope: &Scope,
    types: &mut [Option<ExpressionType>],
    before: Arguments,
    parameter: Option<Parameter>,
    argument: &Expr<'a>,
) -> Arguments
    requires { IsSound scope.now.structs.now }
    ensures { (start : List (Option kinds.ExpressionType)) (parameters : List n.Parameter)
        (ts : Terms)
        → AreRead (env_in scope.now) parameters ts start types.old before
        → option_map parameter_of parameter ≡ slice_get parameters (count_of ts)
        → AreRead (env_in scope.now) parameters (m.also ts (term_of (tree_of argument.now)))
        start types.new result }
{
    let last = expression(scope, types, argument);
    also(before, parameter, last)
}

#[cycle(expression)]
fn arguments<'a>(
    scope: &Scope,
    types: &mut [Option<ExpressionType>],
    thing: Thing,
    given: &[Expr<'a>],
) -> Arguments
    requires { IsSound scope.now.structs.now }
    ensures read { AreRead (env_in scope.now) (parameters_of (meant_of thing.entry))
        (with_arguments m.no_terms (trees_of (map tree_of given.now))) types.old types.new result }
    ensures count { length given.now
        ≡ count_of (with_arguments m.no_terms (trees_of (map tree_of given.now))) }
{
    let mut known = no_arguments();
    for (index, argument) in given.iter().enumerate() {
        known = with_argument(scope, types, known, thing.parameter(index), argument);
    }
    known
}

// The expression before a suffix, together with it.
#[cycle(expression)]
fn with_suffix<'a>(
    scope: &Scope,
    types: &mut [Option<ExpressionType>],
    before: Part<'a>,
    after: &Suffix<'a>,
) -> Part<'a>
    requires { IsSound scope.now.structs.now }
    ensures { (start : List (Option kinds.ExpressionType)) (t : Term)
        → IsRead (env_in scope.now) t start types.old before.entry
        → IsRead (env_in scope.now) (with_suffixes t (suffix (suffix_of after.now) no_suffixes))
        start types.new result }
{
    match after {
        Suffix::Index(spot, by) => {
            let by = expression(scope, types, by);
            keep(types, spot.at, index(*spot, before, by))
        }
        Suffix::Call(spot, given) => {
            let thing = called(scope, &before);
            let known = arguments(scope, types, thing, given);
            keep(
                types,
                spot.at,
                call(*spot, thing, before, given.len(), known),
            )
        }
        Suffix::Dot(spot, named) => keep(types, spot.at, member(scope, *spot, before, *named)),
        Suffix::Arrow(spot, named) => keep(types, spot.at, through(scope, *spot, before, *named)),
        Suffix::Up(spot) => keep(types, spot.at, counted_after(*spot, before)),
        Suffix::Down(spot) => keep(types, spot.at, counted_after(*spot, before)),
    }
}

// The expression before suffixes, together with them.
#[cycle(expression)]
fn postfix<'a>(
    scope: &Scope,
    types: &mut [Option<ExpressionType>],
    whole: Part<'a>,
    suffixes: &[Suffix<'a>],
) -> Part<'a>
    requires { IsSound scope.now.structs.now }
    ensures { (start : List (Option kinds.ExpressionType)) (t : Term)
        → IsRead (env_in scope.now) t start types.old whole.entry
        → IsRead (env_in scope.now) (with_suffixes t (suffixes_of (map suffix_of suffixes.now)))
        start types.new result }
{
    let mut before = whole;
    for after in suffixes {
        before = with_suffix(scope, types, before, after);
    }
    before
}
