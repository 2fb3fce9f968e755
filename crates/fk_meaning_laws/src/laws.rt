//! The law of what processors do together in a round.

ghost use Rattle.fk_meaning_laws.specs.Joint.{RoundsAreJoint};

/// In every allowed round the members of a group in lockstep have one count. Where the members of a
/// node run by themselves or wait, a *begin*, the end of a `farm` or `seq` and a *resume* are done
/// by all members of the node or by none. A `barrier` is done by all that run the body, or by none.
/// A node goes on only if all its parts have ended.
pub fn rounds_are_joint<W>()
    ensures { RoundsAreJoint W }
{}
