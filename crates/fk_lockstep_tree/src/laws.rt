//! The laws of processors in the tree of groups, of their code and of their flat lists.

ghost use Rattle.fk_lockstep_tree.specs.Placed.{OpeningsAreInRoot, WaitersResume};
ghost use Rattle.fk_lockstep_tree.specs.Rounds.{RoundsAreKnown, RoundsKeepTrees};
ghost use Rattle.fk_lockstep_tree.specs.Rounds.{RangesStay, RoundsTakeGroups};
ghost use Rattle.fk_lockstep_tree.specs.Runs.{RunsStayInTrees};
ghost use Rattle.fk_lockstep_tree.specs.Led.{CodeGoes};
ghost use Rattle.fk_lockstep_tree.specs.Lists.{ListsStayInTrees};

/// Before the first round all processors are by themselves in the root.
pub fn openings_are_in_root<W>()
    ensures { OpeningsAreInRoot W }
{}

/// In a round, either no processor at a node changes the tree, or all its members stand there and
/// do the same step that changes it.
pub fn rounds_are_known<W>()
    ensures { RoundsAreKnown W }
{}

/// After a round each processor is where its operations have led it, with the levels of its node
/// and of the nodes above it, and the words of the nodes are nested.
pub fn rounds_keep_trees<W>()
    ensures { RoundsKeepTrees W }
{}

/// The words of a node stay the same for as long as it is there.
pub fn ranges_stay<W>()
    ensures { RangesStay W }
{}

/// Of a group that is in lockstep after a round, either all members were in the round, or none.
pub fn rounds_take_groups<W>()
    ensures { RoundsTakeGroups W }
{}

/// The next operation of a processor that waits for parts is a resume.
pub fn waiters_resume<W>()
    ensures { WaitersResume W }
{}

/// After every schedule of possible rounds in which each processor does at most one operation, the
/// members of each group have one program and one space, and each processor is where its operations
/// and its levels tell.
pub fn runs_stay_in_trees<W>()
    ensures { RunsStayInTrees W }
{}

/// If each operation of the functions of a program is where it may be, whichever branches are
/// taken, then each processor goes from place to place as its operations lead it.
pub fn code_goes()
    ensures { CodeGoes }
{}

/// If a program goes through its groups, parts and bodies in their order, then so does each list
/// that has its code and in which no two operations have one site. After every schedule of possible
/// rounds in which each processor does at most one operation, the members of a group in lockstep
/// are at one index and have one space, and each processor is where its operations and its levels
/// tell.
pub fn lists_stay_in_trees()
    ensures { ListsStayInTrees }
{}
