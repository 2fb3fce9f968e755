//! Laws of flat lists.

ghost use Rattle.fk_core.specs.KeepsRuns.{FlatListsKeepRuns};

/// A program, and a list that has the code of its functions, have the same lawful schedules, and
/// under each of them the same store and status.
pub fn flat_lists_keep_runs()
    ensures { FlatListsKeepRuns }
{}
