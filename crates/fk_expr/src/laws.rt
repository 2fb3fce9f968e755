//! Laws of the definitions.

ghost use Rattle.fk_expr.specs.Laws.{OneAssignment, OneExpression};

/// Any tokens have exactly one answer as an expression: its tree, or the reason why there is none.
pub fn one_expression()
    ensures { OneExpression }
{}

/// Any tokens have exactly one answer as an assignment.
pub fn one_assignment()
    ensures { OneAssignment }
{}
