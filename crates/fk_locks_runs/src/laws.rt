//! Laws of locks in runs. They hold for every form `W` of what is left to do.

ghost use Rattle.fk_locks_runs.specs.Locks.{RoundsUseLocks, RunsExclude};

/// Take a round without a fault in which the requests on two words are those of a lock of tickets.
/// The words are as the events of the round leave those of the lock, and each request is answered by
/// them as the events of the lower processors have left them.
pub fn rounds_use_locks<W>()
    ensures { RoundsUseLocks W }
{}

/// In a run that uses a lock fairly at most one processor is inside at each moment, and of two draws
/// the one that was served first enters first, where both enter.
pub fn runs_exclude<W>()
    ensures { RunsExclude W }
{}
