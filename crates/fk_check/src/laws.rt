//! Laws of the definitions.

ghost use Rattle.fk_check.specs.Laws.{BreaksOneFirst, HasOneFacts, KeepsOrBreaks};

/// A program that keeps all rules doesn't break any rule first.
pub fn keeps_or_breaks()
    ensures { KeepsOrBreaks }
{}

/// A program breaks at most one rule first, at one place.
pub fn breaks_one_first()
    ensures { BreaksOneFirst }
{}

/// A program has at most one list of facts.
pub fn one_facts()
    ensures { HasOneFacts }
{}
