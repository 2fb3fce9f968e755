//! The laws of levels.

ghost use Rattle.fk_core_counting.specs.Laws.{TypedListsTellLevels};

/// In a flat list of well-typed code in which each resume is right after the parts of a split, each
/// index tells how the running call is nested, and the list counts as many levels there.
pub fn typed_lists_tell_levels()
    ensures { TypedListsTellLevels }
{}
