//! Laws of where groups split.

ghost use Rattle.fk_sharing.specs.Laws.{SplitsInLockstep};

/// A group splits only at a token in a synchronous region.
pub fn splits_in_lockstep()
    ensures { SplitsInLockstep }
{}
