//! Laws of the definitions.

ghost use Rattle.fk_space.specs.Laws.{PartsAreInside, PartsAreApart, FullStaysFull};

/// Each part of a split is a space inside the free words of its parent. It has none of the words
/// that the parent has taken or keeps back.
pub fn parts_are_inside()
    ensures { PartsAreInside }
{}

/// No two parts of a split share a word.
pub fn parts_are_apart()
    ensures { PartsAreApart }
{}

/// A heap that can't serve a block serves none from then on, however small.
pub fn full_stays_full()
    ensures { FullStaysFull }
{}
