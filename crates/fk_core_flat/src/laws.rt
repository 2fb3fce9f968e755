//! Laws of flat lists of code, and of the code of programs.

ghost use Rattle.fk_core_flat.specs.Laws.{FlatListsHaveCode, JumpsLeadToOperations, JumpsAreFew};
ghost use Rattle.fk_core_flat.specs.Laws.{SitesGoUp};
ghost use Rattle.fk_core_flat.specs.Fitting.{FormsAreShaped, FunctionsAreClosed};
ghost use Rattle.fk_core_flat.specs.Runs.{FlatProgramsKeepRuns};

/// A list that has the flat code of each function of a program, and nothing else, has the code of
/// the program, and so the same runs.
pub fn flat_lists_have_code()
    ensures { FlatListsHaveCode }
{}

/// The target of a jump in a flat list of functions is an operation.
pub fn jumps_lead_to_operations()
    ensures { JumpsLeadToOperations }
{}

/// The flat list of numbered code has the operations of the code, each once and in their order:
/// their sites go up by one from the first number on.
pub fn sites_go_up<A>()
    ensures { SitesGoUp A }
{}

/// The flat list of code has at most as many jumps as operations and calls together.
pub fn jumps_are_few()
    ensures { JumpsAreFew }
{}

/// The code of a program has the shape of flat lists if calls have their arguments and a body, a
/// loop's condition begins with an operation, and `break` and `continue` are in loops.
pub fn forms_are_shaped()
    ensures { FormsAreShaped }
{}

/// In a program that fits flat lists, the code of each function with a body ends at an operation
/// that ends the function.
pub fn functions_are_closed()
    ensures { FunctionsAreClosed }
{}

/// A program that fits flat lists, and the flat list of its functions, have the same lawful
/// schedules, and under each of them the same store and status.
pub fn flat_programs_keep_runs()
    ensures { FlatProgramsKeepRuns }
{}
