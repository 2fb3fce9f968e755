//! Expressions.

ghost use Rattle.std.specs.Prelude.{◌≡◌, map, IfOk};
ghost use Rattle.fk_syntax.specs.View.{tree_of, link_of, suffix_of, type_of};
ghost use Rattle.fk_syntax.specs.Tree as t;
ghost use Rattle.fk_syntax.specs.Tree.{links_of, suffixes_of, trees_of};

use crate::place::{Name, Spot};
use crate::sign::Sign;
use std::alloc::{AllocError, Global};

/// The base of a type: the type without stars.
#[derive(Clone, Copy)]
pub enum Base<'a> {
    /// `int`
    Int,
    /// `unsigned`, with or without `int` after it
    Unsigned,
    /// `void`
    Void,
    /// `struct` and its name, which isn't a node of the tree
    Struct(Name<'a>),
}

/// A type as it is written: its base, and the number of `*` after it.
#[derive(Clone, Copy)]
pub struct TypeName<'a> {
    pub base: Base<'a>,
    pub stars: u32,
}

/// An expression. Parentheses that only group aren't kept.
#[cycle(expression)]
#[derive(Drop)]
pub enum Expr<'a> {
    /// A number or a character constant: its value, and whether its type is `unsigned`.
    Number(Spot, u32, bool),
    /// `puts` and its text, as it is written with its quotes.
    Puts(Spot, &'a [u8]),
    /// `sizeof` of a type.
    Sizeof(Spot, TypeName<'a>),
    /// A variable, or the name of a called function.
    Named(Name<'a>),
    /// `@`
    GroupNumber(Spot),
    /// `$`
    GroupRank(Spot),
    /// A sign before its operand: `-`, `+`, `!`, `~`, `*`, `&`, `++` or `--`.
    Prefix(Spot, Sign, Box<Expr<'a>>),
    /// A cast, with the spot of its opening parenthesis.
    Cast(Spot, TypeName<'a>, Box<Expr<'a>>),
    /// One level of signs that group to the left, the comma among them: the first operand, and a
    /// link for each sign. In `a + b - c` both signs are links of one chain.
    Chain(Box<Expr<'a>>, Vec<Link<'a>>),
    /// An expression and the suffixes after it, from the left.
    Postfix(Box<Expr<'a>>, Vec<Suffix<'a>>),
    /// An assignment by `=` or a sign such as `+=`: the sign, the target and the value.
    Assign(Spot, Sign, Box<Expr<'a>>, Box<Expr<'a>>),
    /// `condition ? first : second`, with the spot of its `?`.
    Choose(Spot, Box<Expr<'a>>, Box<Expr<'a>>, Box<Expr<'a>>),
}

/// A sign of a chain, and its right operand.
#[cycle(expression)]
#[derive(Drop)]
pub struct Link<'a> {
    pub spot: Spot,
    pub sign: Sign,
    pub right: Expr<'a>,
}

/// A suffix of an expression.
#[cycle(expression)]
#[derive(Drop)]
pub enum Suffix<'a> {
    /// An index, with the spot of its `[`.
    Index(Spot, Expr<'a>),
    /// A call with its arguments, with the spot of its `(`.
    Call(Spot, Vec<Expr<'a>>),
    /// A member of a struct, with the spot of its `.`.
    Dot(Spot, Name<'a>),
    /// A member of the struct that a pointer points to, with the spot of its `->`.
    Arrow(Spot, Name<'a>),
    /// `++`
    Up(Spot),
    /// `--`
    Down(Spot),
}

// An expression in a box. It fails only if there isn't enough memory.
fn boxed<'a>(alloc: Global, expression: Expr<'a>) -> Result<Box<Expr<'a>>, AllocError>
    ensures { IfOk result (λ b. b.value ≡ expression.entry) }
{
    Ok(Box::new(alloc, expression)?)
}

impl<'a> Expr<'a> {
    /// A sign before its operand. It fails only if there isn't enough memory.
    pub fn prefix(
        alloc: Global,
        spot: Spot,
        sign: Sign,
        operand: Expr<'a>,
    ) -> Result<Expr<'a>, AllocError>
        ensures { IfOk result (λ e. tree_of e ≡ t.Prefix spot sign (tree_of operand.entry)) }
    {
        Ok(Expr::Prefix(spot, sign, boxed(alloc, operand)?))
    }

    /// A cast of its operand to a type. It fails only if there isn't enough memory.
    pub fn cast(
        alloc: Global,
        spot: Spot,
        kind: TypeName<'a>,
        operand: Expr<'a>,
    ) -> Result<Expr<'a>, AllocError>
        ensures { IfOk result
            (λ e. tree_of e ≡ t.Cast spot (type_of kind.entry) (tree_of operand.entry)) }
    {
        Ok(Expr::Cast(spot, kind, boxed(alloc, operand)?))
    }

    /// One level of operators that group to the left: the first operand, and a link for each
    /// operator. It fails only if there isn't enough memory.
    pub fn chain(
        alloc: Global,
        first: Expr<'a>,
        links: Vec<Link<'a>>,
    ) -> Result<Expr<'a>, AllocError>
        ensures { IfOk result (λ e. tree_of e
            ≡ t.Chain (tree_of first.entry) (links_of (map link_of links.entry.items))) }
    {
        Ok(Expr::Chain(boxed(alloc, first)?, links))
    }

    /// An expression and the suffixes after it. It fails only if there isn't enough memory.
    pub fn postfix(
        alloc: Global,
        whole: Expr<'a>,
        suffixes: Vec<Suffix<'a>>,
    ) -> Result<Expr<'a>, AllocError>
        ensures { IfOk result (λ e. tree_of e
            ≡ t.Postfix (tree_of whole.entry) (suffixes_of (map suffix_of suffixes.entry.items))) }
    {
        Ok(Expr::Postfix(boxed(alloc, whole)?, suffixes))
    }

    /// An assignment. It fails only if there isn't enough memory.
    pub fn assign(
        alloc: Global,
        spot: Spot,
        sign: Sign,
        target: Expr<'a>,
        value: Expr<'a>,
    ) -> Result<Expr<'a>, AllocError>
        ensures { IfOk result
            (λ e. tree_of e ≡ t.Assign spot sign (tree_of target.entry) (tree_of value.entry)) }
    {
        let target = boxed(alloc, target)?;
        Ok(Expr::Assign(spot, sign, target, boxed(alloc, value)?))
    }

    /// `condition ? first : second`. It fails only if there isn't enough memory.
    pub fn choose(
        alloc: Global,
        spot: Spot,
        condition: Expr<'a>,
        first: Expr<'a>,
        second: Expr<'a>,
    ) -> Result<Expr<'a>, AllocError>
        ensures { IfOk result (λ e. tree_of e
            ≡ t.Choose spot (tree_of condition.entry) (tree_of first.entry)
            (tree_of second.entry)) }
    {
        let condition = boxed(alloc, condition)?;
        let first = boxed(alloc, first)?;
        Ok(Expr::Choose(spot, condition, first, boxed(alloc, second)?))
    }
}

impl<'a> Link<'a> {
    /// An operator and its right operand.
    pub fn new(spot: Spot, sign: Sign, right: Expr<'a>) -> Link<'a>
        ensures spot { (link_of result).spot ≡ spot }
        ensures sign { (link_of result).sign ≡ sign }
        ensures right { (link_of result).right ≡ tree_of right.entry }
    {
        Link { spot, sign, right }
    }
}

impl<'a> Suffix<'a> {
    /// `[by]`
    pub fn index(spot: Spot, by: Expr<'a>) -> Suffix<'a>
        ensures { suffix_of result ≡ t.Index spot (tree_of by.entry) }
    {
        Suffix::Index(spot, by)
    }

    /// A call with its arguments.
    pub fn call(spot: Spot, arguments: Vec<Expr<'a>>) -> Suffix<'a>
        ensures { suffix_of result ≡ t.Call spot (trees_of (map tree_of arguments.entry.items)) }
    {
        Suffix::Call(spot, arguments)
    }
}
