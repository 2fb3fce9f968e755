//! Laws of those who could act. They hold for every form `W` of what is left to do, and for every
//! form `X` of the places where processors are.

ghost use Rattle.fk_replay_able.specs.Able.{WhoCouldActIsAble};
ghost use Rattle.fk_replay_able.specs.Known.{OpeningsKnowAble, RoundsKnowAble, ArrivalsKnowAble};

/// A processor could act if it has an operation left that it does in a group in lockstep or by
/// itself, or that all members of its node meet for, and are there; and only then.
pub fn who_could_act_is_able<W, X>()
    ensures { WhoCouldActIsAble W X }
{}

/// If all processors are still to come, then nobody needs to be known.
pub fn openings_know_able<W, X>()
    ensures { OpeningsKnowAble W X }
{}

/// Who could act before a possible round, and isn't in it, can act after it. Who else can act after
/// it was in it, or waits for others, of whom one was in it.
pub fn rounds_know_able<W, X>()
    ensures { RoundsKnowAble W X }
{}

/// When a processor comes to its next operation, it alone becomes able, or all members of its node,
/// or nobody.
pub fn arrivals_know_able<W, X>()
    ensures { ArrivalsKnowAble W X }
{}
