//! Laws of the definitions.

ghost use Rattle.fk_types_judgments.specs.Laws.{HasOneType};

/// An expression has at most one type.
pub fn one_type()
    ensures { HasOneType }
{}
