//! The pieces of a text.

use fk_syntax::{Declared, Expr, Function, Spot, TypeName};

/// How an expression is used.
#[derive(Clone, Copy)]
pub enum Role {
    /// The condition of an `if` or a loop.
    Condition,
    /// A statement, or one of the expressions that a `for` evaluates before and after its body.
    Alone,
    /// A number of a `start` or a `fork`.
    Word,
}

/// A declaration outside structs, or an expression.
#[derive(Clone, Copy)]
pub enum Piece<'p, 'a> {
    /// A variable of file scope, with its initial value if it has one.
    FileVariable(&'p Declared<'a>),
    /// A variable in a function, with its initial value if it has one.
    Variable(&'p Declared<'a>),
    Parameter(&'p Declared<'a>),
    /// The header of a function.
    Header(&'p Function<'a>),
    /// An expression.
    Used(Role, &'p Expr<'a>),
    /// A `return`: the result type of its function, its spot, and its value if it has one.
    Return(&'p TypeName<'a>, Spot, &'p Option<Expr<'a>>),
}
