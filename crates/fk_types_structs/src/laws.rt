//! Laws of the definitions.

ghost use Rattle.fk_types_structs.specs.Laws.{HasOneSize};

/// A type has at most one number of words.
pub fn one_size()
    ensures { HasOneSize }
{}
