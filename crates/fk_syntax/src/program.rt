//! Statements, items and programs.

ghost use Rattle.std.specs.Prelude.{◌≡◌, map};
ghost use Rattle.fk_syntax.specs.Program as p;
ghost use Rattle.fk_syntax.specs.Program.{statements_of};
ghost use Rattle.fk_syntax.specs.ProgramView.{statement_of};

use crate::expression::{Expr, TypeName};
use crate::place::{Name, Place, Spot};

/// How the processors that call a function run it.
#[derive(Clone, Copy, PartialEq, Eq)]
pub enum Mode {
    /// `sync`: in lockstep.
    Sync,
    /// `async`, or no word: each by itself.
    Async,
    /// `straight`: in lockstep or each by itself.
    Straight,
}

/// A variable, a member of a struct or a parameter.
#[derive(Drop)]
pub struct Declared<'a> {
    /// Whether it has `sh`.
    pub shared: bool,
    pub kind: TypeName<'a>,
    pub name: Name<'a>,
    /// The length of an array.
    pub length: Option<u32>,
    /// The initial value of a variable.
    pub first: Option<Expr<'a>>,
}

/// A statement, with the spot of its first keyword if it has one.
#[derive(Drop)]
pub enum Stmt<'a> {
    /// A `;` alone.
    Empty,
    Expression(Expr<'a>),
    /// Statements in braces.
    Block(Vec<Stmt<'a>>),
    /// A declaration, with a row for each variable.
    Declare(Vec<Declared<'a>>),
    /// `if (condition) then`, and the statement after its `else`, if it has one.
    If(Spot, Expr<'a>, Box<Stmt<'a>>, Option<Box<Stmt<'a>>>),
    /// `while (condition) body`
    While(Spot, Expr<'a>, Box<Stmt<'a>>),
    /// `do body while (condition);`
    DoWhile(Spot, Box<Stmt<'a>>, Expr<'a>),
    /// `for (before; condition; after) body`
    For(Spot, Option<Expr<'a>>, Option<Expr<'a>>, Option<Expr<'a>>, Box<Stmt<'a>>),
    /// `start body`, or `start (count) body`
    Start(Spot, Option<Expr<'a>>, Box<Stmt<'a>>),
    /// `farm body`
    Farm(Spot, Box<Stmt<'a>>),
    /// `seq body`
    Seq(Spot, Box<Stmt<'a>>),
    /// `fork (parts; @ = part; $ = rank) body`, where the rank may be absent
    Fork(Spot, Expr<'a>, Expr<'a>, Option<Expr<'a>>, Box<Stmt<'a>>),
    /// `barrier;`
    Barrier(Spot),
    /// `break;`
    Break(Spot),
    /// `continue;`
    Continue(Spot),
    /// `return;`, or `return value;`
    Return(Spot, Option<Expr<'a>>),
}

/// A function, with its body if it has one.
#[derive(Drop)]
pub struct Function<'a> {
    pub mode: Mode,
    pub result: TypeName<'a>,
    pub name: Name<'a>,
    pub params: Vec<Declared<'a>>,
    pub body: Option<Vec<Stmt<'a>>>,
}

/// An item: one of the declarations of which a text consists.
#[derive(Drop)]
pub enum Item<'a> {
    /// A struct, with its members in order.
    Struct(Name<'a>, Vec<Declared<'a>>),
    /// A declaration outside functions, with a row for each variable.
    Variables(Vec<Declared<'a>>),
    Function(Function<'a>),
}

/// A text: its items, the place directly after its last token (1:1 if there are no tokens), and the
/// number of its tokens.
#[derive(Drop)]
pub struct Program<'a> {
    pub items: Vec<Item<'a>>,
    pub end: Place,
    pub tokens: u32,
}

impl<'a> Stmt<'a> {
    /// A block.
    pub fn block(statements: Vec<Stmt<'a>>) -> Stmt<'a>
        ensures { statement_of result
            ≡ p.Block (statements_of (map statement_of statements.entry.items)) }
    {
        Stmt::Block(statements)
    }
}
