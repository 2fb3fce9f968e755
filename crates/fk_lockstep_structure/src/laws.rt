//! Laws of programs that go through their groups, parts and bodies in their order, and of code
//! whose calls and frames are in order.

ghost use Rattle.fk_lockstep_structure.specs.Ahead.{CodeFollows};
ghost use Rattle.fk_lockstep_structure.specs.Pending.{CodeIsCounted};
ghost use Rattle.fk_lockstep_structure.specs.InPlace.{ProgramsFollow, ProgramsHaveOneProgram};
ghost use Rattle.fk_lockstep_structure.specs.Framed.{CodeIsFramed};
ghost use Rattle.fk_lockstep_structure.specs.Inner.{ProgramsAreFramed};

/// If the steps of the tree occur in the code of functions only where they may, the code leads each
/// processor through its groups, parts and bodies in their order, whichever branches are taken.
pub fn code_follows()
    ensures { CodeFollows }
{}

/// A program whose text keeps the rules on steps of the tree leads each processor through its
/// groups, parts and bodies in their order.
pub fn programs_follow()
    ensures { ProgramsFollow }
{}

/// If each `fork` of code comes after an agree on its number of parts, and the code in between
/// leaves two values more on each of its branches, then the `fork` takes that number. This holds
/// whichever branches its processors have taken, and whatever functions they have called.
pub fn code_is_counted()
    ensures { CodeIsCounted }
{}

/// After every schedule of possible rounds of a program whose text keeps these rules, all members
/// of a group in lockstep have the same work left. Before a branch they have the same last value.
pub fn programs_have_one_program()
    ensures { ProgramsHaveOneProgram }
{}

/// Take code in which only groups take words of their space, and functions take their frames in the
/// openings of calls. It takes them, and enters and leaves calls, in the group that it is in,
/// whichever branches are taken.
pub fn code_is_framed()
    ensures { CodeIsFramed }
{}

/// The code of a text that is in place keeps these rules on frames, if no frame of its parts is a
/// function's own, and functions that processors call by themselves have no frame.
pub fn programs_are_framed()
    ensures { ProgramsAreFramed }
{}
