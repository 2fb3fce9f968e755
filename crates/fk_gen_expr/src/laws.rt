//! Laws of the blocks of expressions.

ghost use Rattle.fk_gen_expr.specs.Law.{ExpressionsDo, ExpressionsKeep};

/// A hart at the block of an operation of expressions does the operation with its first
/// instruction, and after the block it stands for its processor again.
pub fn expressions_do()
    ensures { ExpressionsDo }
{}

/// The block of an operation of expressions takes as many cycles as it has lines. The first is its
/// commit. It keeps `a0` to `a3`, and all words of frames except values and the variable that it
/// sets.
pub fn expressions_keep()
    ensures { ExpressionsKeep }
{}
