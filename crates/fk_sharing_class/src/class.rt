//! The class of an expression: whether it is shared.

ghost use Rattle.std.specs.Prelude.{◌≡◌, ◌↔◌, IsTrue, map};
ghost use Rattle.fk_syntax.specs.Tree.{links_of, suffixes_of};
ghost use Rattle.fk_syntax.specs.View.{tree_of, link_of, suffix_of};
ghost use Rattle.fk_syntax.specs.Program.{ProgramTree};
ghost use Rattle.fk_types_names.specs.Names.{AreNames};
ghost use Rattle.fk_sharing_class.specs.Things.{thing_in};
ghost use Rattle.fk_sharing_class.specs.Class as c;
ghost use Rattle.fk_sharing_class.specs.Class.{is_call_shared, is_joined_shared};
ghost use Rattle.fk_sharing_class.specs.Class.{is_assigned_shared, is_chain_shared};
ghost use Rattle.fk_sharing_class.specs.Class.{is_postfix_shared};
ghost use Rattle.fk_sharing_class.specs.Shared.{IsShared};

use crate::thing::{is_name_shared, is_named_call_shared, thing_at};
use fk_syntax::{Expr, Link, Sign, Suffix};
use fk_types_names::Names;

/// Whether a sign with two operands is shared, by whether each of these is.
pub fn is_joined_shared(sign: Sign, left: bool, right: bool) -> bool
    ensures { result ≡ is_joined_shared sign left right }
{
    match sign {
        Sign::Comma => right,
        _ => left && right,
    }
}

/// Whether an assignment is shared, by whether its target and its value are.
pub fn is_assigned_shared(sign: Sign, target: bool, value: bool) -> bool
    ensures { result ≡ is_assigned_shared sign target value }
{
    match sign {
        Sign::Assign => value,
        _ => target && value,
    }
}

/// Whether a call of an expression is shared, by the names of the program.
pub fn is_call_shared(names: &Names, callee: &Expr) -> bool
    ensures { result ≡ is_call_shared (thing_in names.now) (tree_of callee.now) }
{
    match callee {
        Expr::Named(name) => is_named_call_shared(thing_at(names, name.at), name.bytes),
        Expr::Number(_, _, _)
        | Expr::Puts(_, _)
        | Expr::Sizeof(_, _)
        | Expr::GroupNumber(_)
        | Expr::GroupRank(_)
        | Expr::Prefix(_, _, _)
        | Expr::Cast(_, _, _)
        | Expr::Chain(_, _)
        | Expr::Postfix(_, _)
        | Expr::Assign(_, _, _, _)
        | Expr::Choose(_, _, _, _) => false,
    }
}

// Whether an expression is shared.
#[cycle(expression)]
fn is_expression_shared(names: &Names, expression: &Expr) -> bool
    ensures { result ≡ c.is_shared (thing_in names.now) (tree_of expression.now) }
{
    match expression {
        Expr::Number(_, _, _) | Expr::Sizeof(_, _) | Expr::GroupNumber(_) => true,
        Expr::Puts(_, _) | Expr::GroupRank(_) => false,
        Expr::Named(name) => is_name_shared(thing_at(names, name.at), name.bytes),
        Expr::Prefix(_, _, operand) | Expr::Cast(_, _, operand) => {
            is_expression_shared(names, operand)
        }
        Expr::Chain(first, links) => {
            is_chain_shared(names, is_expression_shared(names, first), links)
        }
        Expr::Postfix(whole, suffixes) => {
            let before = is_expression_shared(names, whole);
            is_postfix_shared(names, before, is_call_shared(names, whole), suffixes)
        }
        Expr::Assign(_, sign, target, value) => {
            let target = is_expression_shared(names, target);
            is_assigned_shared(*sign, target, is_expression_shared(names, value))
        }
        Expr::Choose(_, condition, first, second) => {
            is_expression_shared(names, condition)
                && is_expression_shared(names, first)
                && is_expression_shared(names, second)
        }
    }
}

// Whether a chain is shared, where `first` tells whether its first operand is.
#[cycle(expression)]
fn is_chain_shared(names: &Names, first: bool, links: &[Link]) -> bool
    ensures { result
        ≡ is_chain_shared (thing_in names.now) first (links_of (map link_of links.now)) }
{
    let mut shared = first;
    for link in links {
        shared = is_joined_shared(link.sign, shared, is_expression_shared(names, &link.right));
    }
    shared
}

// Whether an expression with suffixes is shared. `whole` tells whether it is without them, and
// `called` whether a call of it is.
#[cycle(expression)]
fn is_postfix_shared(names: &Names, whole: bool, called: bool, suffixes: &[Suffix]) -> bool
    ensures { result ≡ is_postfix_shared (thing_in names.now) whole called
        (suffixes_of (map suffix_of suffixes.now)) }
{
    let mut shared = whole;
    let mut call = called;
    for suffix in suffixes {
        match suffix {
            Suffix::Index(_, by) => shared = shared && is_expression_shared(names, by),
            Suffix::Call(_, _) => shared = call,
            Suffix::Dot(_, _) | Suffix::Arrow(_, _) | Suffix::Up(_) | Suffix::Down(_) => {}
        }
        call = false;
    }
    shared
}

/// Whether an expression of a program is shared, by the names of the program. A shared expression
/// has one value for a whole group that runs it in lockstep. Any other one is private, and each
/// processor may have its own value. It takes no memory, and time linear in the expression.
///
/// Numbers, `sizeof`, `@`, `groupsize()`, `__STARTED_PROCS__`, `__inputs`, `__input`, variables and
/// parameters with `sh` and calls of `shalloc` are shared. Other variables and parameters, `$`,
/// `__PROC_NR__` and all other calls are private. A prefix sign, a cast, a member, `++` and `--`
/// have the class of their operand, `=` has that of its right side, and the comma that of its last
/// part. Every other expression is shared if all its parts are.
pub fn is_shared(names: &Names, expression: &Expr) -> bool
    ensures { (program : ProgramTree) → AreNames program names.now
        → (IsTrue result ↔ IsShared program (tree_of expression.now)) }
{
    is_expression_shared(names, expression)
}
