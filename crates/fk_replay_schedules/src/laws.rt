//! Laws of schedules, which no code runs.

ghost use Rattle.fk_replay_schedules.specs.Laws.{GoodSchedulesAreLawful, LawfulSchedulesHaveNoFault};
ghost use Rattle.fk_replay_schedules.specs.Laws.{AbsencesTellLateRounds, AbsencesAreKept};
ghost use Rattle.fk_replay_schedules.specs.Moments.{TracesHaveMoments};
ghost use Rattle.fk_replay_schedules.specs.Laws.{EmptyRoundsChangeNothing, FirstRoundsArePossible};

/// A lawful schedule has no bad round and no late one.
pub fn lawful_schedules_have_no_fault<W>()
    ensures { LawfulSchedulesHaveNoFault W }
{}

/// A schedule is lawful if each of its rounds is possible, or is the last one and stopped, and no
/// round is late.
pub fn good_schedules_are_lawful<W>()
    ensures { GoodSchedulesAreLawful W }
{}

/// A round is late for those who are absent from it, and could act and were absent since 255 rounds
/// before it.
pub fn absences_tell_late_rounds<W>()
    ensures { AbsencesTellLateRounds W }
{}

/// Suppose that it is known since which round each processor could act and is absent. Then it is
/// known after one more round, if those who are in it are taken out and those who could act after
/// it are put in.
pub fn absences_are_kept<W>()
    ensures { AbsencesAreKept W }
{}

/// A round in which nobody acts is possible, and changes nothing.
pub fn empty_rounds_change_nothing<W>()
    ensures { EmptyRoundsChangeNothing W }
{}

/// The first rounds of a schedule are possible one after another if each of them is.
pub fn first_rounds_are_possible<W>()
    ensures { FirstRoundsArePossible W }
{}

/// The lines of the counts in a trace text tell moments, each later than those before it.
pub fn traces_have_moments()
    ensures { TracesHaveMoments }
{}
