//! The law of locks in runs of programs.

ghost use Rattle.fk_locks_calls.specs.Calls.{ProgramsExclude};

/// In a run of a program that begins with the lock's functions, and that uses a lock fairly, at most
/// one processor is inside at each moment. Of two draws, the one that was served first enters first,
/// where both enter.
pub fn programs_exclude()
    ensures { ProgramsExclude }
{}
