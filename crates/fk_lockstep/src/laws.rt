//! Laws of groups in lockstep: laws of rounds, of one remaining program, and of one space.

ghost use Rattle.fk_lockstep.specs.InStep.{StaysInStep};
ghost use Rattle.fk_lockstep.specs.Noted.{FormsAreInStep};
ghost use Rattle.fk_lockstep.specs.Together.{GroupsGoOn};
ghost use Rattle.fk_lockstep.specs.AnyForm.{FormsGoOn, EntriesGoAsCode};
ghost use Rattle.fk_lockstep.specs.Untouched.{UntouchedNodesStay};
ghost use Rattle.fk_lockstep.specs.Keep.{GroupsStayTogether};
ghost use Rattle.fk_lockstep.specs.Parts.{RoundsGoThroughParts};
ghost use Rattle.fk_lockstep.specs.OneProgram.{GroupsHaveOneProgram};
ghost use Rattle.fk_lockstep.specs.OneSpace.{GroupsHaveOneSpace};

/// Synchronous code is in step: a branch or a `shalloc` occurs in it only directly after an agree.
///
/// This holds for each statement whose deciding tokens are noted as being in a synchronous region,
/// and in which no name denotes a function that may not be called there. It also holds for the
/// functions that may be called.
pub fn forms_are_in_step()
    ensures { FormsAreInStep }
{}

/// What is left of code in step is in step again, whichever branches are taken, up to the end of a
/// part or a body that the members run by themselves.
pub fn stays_in_step()
    ensures { StaysInStep }
{}

/// Take two members of a group that have the same code left, which is in step, and levels that
/// differ in `$` alone. After a round without a fault in which they take the same branch, this
/// holds again.
pub fn groups_go_on()
    ensures { GroupsGoOn }
{}

/// Take any form `W` of what is left to do, where it goes on as code in step does. Two members that
/// are at one place of a list of operations are at one place after the round.
pub fn forms_go_on<W>()
    ensures { FormsGoOn W }
{}

/// In a list that has the code of a program, the entry of a function goes on as the code of the
/// function does.
pub fn entries_go_as_code()
    ensures { EntriesGoAsCode }
{}

/// A round doesn't change a node of the tree, other than the root, if no processor does a step
/// there that changes the tree. It adds no members to an existing node. A processor that isn't a
/// member of a changed node stays where it is, unless there is a `start`.
pub fn untouched_nodes_stay<W>()
    ensures { UntouchedNodesStay W }
{}

/// Two members of a group that are together stay together in a round in which they don't change the
/// tree, and are then at the same node. They take the same branch because the code is in step.
pub fn groups_stay_together()
    ensures { GroupsStayTogether }
{}

/// In a round without a fault a processor's local operations and its request keep it in its parts
/// and bodies, and in the groups around its own. Then it takes at most one step of the tree, which
/// enters or leaves them as they are nested.
pub fn rounds_go_through_parts()
    ensures { RoundsGoThroughParts }
{}

/// After every schedule of possible rounds, all members of a group in lockstep have the same work
/// left. Before a branch they have the same last value. They have the same `@` and the same sizes
/// of their group and of all groups around it, and `groupsize()` is the number of members.
/// Processors that wait at one node have the same work left, and so have those that are about to
/// begin the group of a `start`. Each processor is at exactly one node.
///
/// This holds for every form `W` of what is left to do. The program must lead each processor
/// through its groups, parts and bodies in their order, and a `fork` must take the number of parts
/// on which its group has agreed.
pub fn groups_have_one_program<W>()
    ensures { GroupsHaveOneProgram W }
{}

/// After every schedule of possible rounds, all members of a group in lockstep have levels that
/// differ in `$` alone: they have the same `@`, size and space of their group and of each group
/// around it. So have processors that wait at one node. All processors at one node, also those that
/// run by themselves, have the same spaces.
///
/// This holds for every form `W` of what is left to do. The groups of the program must have one
/// remaining program, and a function must take its group frame in a group that it was called in,
/// and leave it there.
pub fn groups_have_one_space<W>()
    ensures { GroupsHaveOneSpace W }
{}
