//! Laws of the definitions.

ghost use Rattle.fk_layout_globals.specs.Leaves.{LeavesItsWorth};

/// The value of a constant is the one that its operations leave when one processor runs them by
/// itself.
pub fn leaves_its_worth()
    ensures { LeavesItsWorth }
{}
