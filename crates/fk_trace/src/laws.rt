//! Laws of traces, which no code runs.

ghost use Rattle.fk_trace.specs.Schedule.{CountsAreTheSchedule};

/// The counts of a trace are the schedule that is read off the machine's run.
pub fn counts_are_the_schedule()
    ensures { CountsAreTheSchedule }
{}
