//! Laws of programs and their lists, which no code runs.

ghost use Rattle.fk_replay_source.specs.Laws.{AnswersAreCarried, ListsAllowTheSame};
ghost use Rattle.fk_replay_source.specs.Laws.{TracesAreAccepted};

/// After every schedule a program and a list that has its code allow the same rounds, with the same
/// faults.
pub fn lists_allow_the_same()
    ensures { ListsAllowTheSame }
{}

/// What the replay of a list answers is the answer for the program whose code it has: the output and
/// the status, the first round that is not possible, or the first that is late and the least
/// processor for which it is.
pub fn answers_are_carried()
    ensures { AnswersAreCarried }
{}

/// The trace of each run of a text's image is accepted where the text's program is run under it,
/// with the same input. The replay has the machine's output and status, if memory is not refused.
pub fn traces_are_accepted()
    ensures { TracesAreAccepted }
{}
