//! Laws of rounds, which no code runs.

ghost use Rattle.fk_replay_rounds.specs.Own.{RoundsKeepOwn};
ghost use Rattle.fk_replay_rounds.specs.Fits.{LowestMembersTell};
ghost use Rattle.fk_replay_rounds.specs.Joint.{TakenJointsStay, WholeRoundsFit};

/// All processors of a round fit together if each fits to the lowest member of its node, and that
/// one to all; and only then.
pub fn lowest_members_tell()
    ensures { LowestMembersTell }
{}

/// Each processor keeps its number, and its calls are no deeper than a call may be.
pub fn rounds_keep_own<W>()
    ensures { RoundsKeepOwn W }
{}

/// Neither local operations nor requests are joint.
pub fn taken_joints_stay<W>()
    ensures { TakenJointsStay W }
{}

/// If nobody is above the last processor, then a whole round fits.
pub fn whole_rounds_fit()
    ensures { WholeRoundsFit }
{}
