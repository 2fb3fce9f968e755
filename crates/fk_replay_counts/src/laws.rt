//! Laws of rounds with counts. They hold for every form `W` of what is left to do.

ghost use Rattle.fk_replay_counts.specs.Counts.{RoundsAreSplit, SchedulesAreSingle};
ghost use Rattle.fk_replay_counts.specs.Steady.{RunsAreSteady};

/// In each allowed round the processors may do all but the last of their operations in rounds of
/// single operations before it. These rounds are possible and change no shared data. The last
/// operations are then an allowed round with the same result.
pub fn rounds_are_split<W>()
    ensures { RoundsAreSplit W }
{}

/// Each schedule of possible rounds that leaves no fault has a schedule of possible rounds of single
/// operations with the same state at its end.
pub fn schedules_are_single<W>()
    ensures { SchedulesAreSingle W }
{}

/// If processors stand in the tree after every schedule of single operations, then they do after
/// every schedule of possible rounds. Then at each node of every possible round nobody changes the
/// tree, or all its members do one step, and a count that one member of a group may have all its
/// members may have.
pub fn runs_are_steady<W, X>()
    ensures { RunsAreSteady W X }
{}
