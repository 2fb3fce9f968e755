//! Constant expressions.

ghost use Rattle.std.specs.Prelude.{◌≡◌, map};
ghost use Rattle.fk_syntax.specs.Tree.{links_of};
ghost use Rattle.fk_syntax.specs.View.{tree_of, link_of};
ghost use Rattle.fk_meaning_forms.specs.Expressions as e;
ghost use Rattle.fk_layout_globals.specs.Constants as c;
ghost use Rattle.fk_layout_globals.specs.View.{tables_of};

use crate::types::Types;
use fk_layout_walk::token_of;
use fk_meaning_forms::{Move, is_shift, move_of, operator_of};
use fk_meaning_operation::Operation;
use fk_num::{Op, apply};
use fk_syntax::{Expr, Link, Sign};

/// The value of a constant expression, which is the value that its operations leave. Forms that
/// don't occur in constants count as 0. It takes no memory, and time linear in the expression.
#[cycle(expression)]
pub fn constant(types: &Types, whole: &Expr) -> u32
    ensures { result ≡ c.worth (tables_of types.now) (tree_of whole.now) }
{
    match whole {
        Expr::Number(_, value, _) => *value,
        Expr::Sizeof(spot, _) => types.note(spot.at).binding,
        Expr::Prefix(_, sign, operand) => behind_sign(*sign, constant(types, operand)),
        Expr::Cast(_, _, operand) => constant(types, operand),
        Expr::Chain(first, links) => {
            chain(types, constant(types, first), token_of(first), links)
        }
        Expr::Choose(_, condition, first, second) => {
            if constant(types, condition) == 0 {
                constant(types, second)
            } else {
                constant(types, first)
            }
        }
        Expr::Puts(_, _)
        | Expr::Named(_)
        | Expr::GroupNumber(_)
        | Expr::GroupRank(_)
        | Expr::Postfix(_, _)
        | Expr::Assign(_, _, _, _) => 0,
    }
}

// The value after the links of a chain, whose first expression has the value `first`.
#[cycle(expression)]
fn chain(types: &Types, first: u32, at: u32, links: &[Link]) -> u32
    ensures { result ≡ c.worth_of_links (tables_of types.now) first at
        (links_of (map link_of links.now)) }
{
    let mut value = first;
    let mut left = at;
    for link in links {
        let right = constant(types, &link.right);
        value = link_by(types, link.sign, left, token_of(&link.right), value, right);
        left = link.spot.at;
    }
    value
}

// The value of a sign between two values.
fn link_by(types: &Types, sign: Sign, left: u32, right: u32, a: u32, b: u32) -> u32
    ensures { result ≡ c.linked_by (tables_of types.now) sign left right a b }
{
    match sign {
        Sign::Comma => b,
        Sign::AndAnd => if a == 0 { 0 } else { u32::from(b != 0) },
        Sign::OrOr => if a == 0 { u32::from(b != 0) } else { 1 },
        _ => operate(types, sign, left, right, a, b),
    }
}

// The value of an operator between two values, chosen by the types of their tokens.
fn operate(types: &Types, sign: Sign, left: u32, right: u32, a: u32, b: u32) -> u32
    ensures { result ≡ c.operated (tables_of types.now) sign left right a b }
{
    let unsigned = if is_shift(sign) {
        types.is_unsigned(left)
    } else {
        types.is_unsigned(left) || types.is_unsigned(right)
    };
    let step = types.kind_at(left).step;
    let operation = operator_of(sign, unsigned);
    if step == 0 {
        join(operation, a, b)
    } else {
        shift(move_of(sign), step, operation, a, b)
    }
}

// The value of an operator on two words.
fn join(operation: Operation, a: u32, b: u32) -> u32
    ensures { result ≡ c.joined operation a b }
{
    match operation {
        Operation::Binary(op, true) => apply(op, b, a),
        Operation::Binary(op, false) => apply(op, a, b),
        _ => 0,
    }
}

// A pointer moved forth or back by `b` steps. If the sign doesn't move a pointer, the value of its
// operator.
fn shift(by: Move, step: u32, operation: Operation, a: u32, b: u32) -> u32
    ensures { result ≡ c.moved by step operation a b }
{
    match by {
        Move::Forth => a.wrapping_add(b.wrapping_mul(step)),
        Move::Back => a.wrapping_add(apply(Op::Sub, 0, b).wrapping_mul(step)),
        Move::NoMove => join(operation, a, b),
    }
}

// The value of a sign in front of a value.
fn behind_sign(sign: Sign, value: u32) -> u32
    ensures { result ≡ c.behind_sign sign value }
{
    match sign {
        Sign::Minus => apply(Op::Sub, 0, value),
        Sign::Plus => value,
        Sign::Exclamation => apply(Op::Eq, value, 0),
        Sign::Tilde => apply(Op::Xor, value, u32::MAX),
        _ => 0,
    }
}
