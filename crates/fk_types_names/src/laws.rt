//! Laws of what names denote.

ghost use Rattle.fk_types_names.specs.Laws.{MeansOnce};

/// A token of a well-formed program has at most one meaning.
pub fn one_meaning()
    ensures { MeansOnce }
{}
