//! The law of stopped rounds. It holds for every form `W` of what is left to do.

ghost use Rattle.fk_replay_rounds.specs.Stops.{FaultsOfTheLastStop};

/// A round is stopped if its last processor has its first fault, and the others fit to each other
/// and to what those above the last one are about to do; and only then.
pub fn faults_of_the_last_stop<W>()
    ensures { FaultsOfTheLastStop W }
{}
