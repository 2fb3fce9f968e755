//! Laws of trace texts, which no code runs.

ghost use Rattle.fk_replay_text.specs.Rounds.{RoundsAreCounts};
ghost use Rattle.fk_replay_text.specs.Written.{TracesAreTexts};

/// The trace of a run of 1 to 1,024 harts, over fewer than 2^32 cycles, is a trace text, if each hart
/// that commits does 1 to 255 operations.
pub fn traces_are_texts()
    ensures { TracesAreTexts }
{}

/// The rounds that the trace of a run tells are the counts that its harts commit in each cycle.
pub fn rounds_are_counts()
    ensures { RoundsAreCounts }
{}
