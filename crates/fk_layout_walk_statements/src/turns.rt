//! The parts of a loop besides its body.

use fk_syntax::Expr;

/// A loop, without its body.
#[derive(Clone, Copy)]
pub(crate) enum Turns<'s, 'a> {
    /// The condition, then the body.
    While(&'s Expr<'a>),
    /// The body, then the condition.
    Until(&'s Expr<'a>),
    /// The condition, then the body, then the step.
    For(&'s Option<Expr<'a>>, &'s Option<Expr<'a>>),
}
