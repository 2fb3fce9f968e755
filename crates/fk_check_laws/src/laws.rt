//! Laws of programs that keep all rules.

ghost use Rattle.fk_check_laws.specs.Laws.{ConditionsOfLoopsBegin, CorrectProgramsFit};
ghost use Rattle.fk_check_laws.specs.Valid.{CorrectProgramsStandInPlace, ValidProgramsAreInPlace};
ghost use Rattle.fk_check_laws.specs.Valid.{ValidProgramsHaveOneProgram, ValidProgramsHaveOneSpace};

/// A program that keeps the forty rules calls only functions that have a body, each with its
/// arguments. The conditions of its loops begin with an operation, and its `break` and `continue`
/// are in loops. The program thus fits, if its tree is trim, as that of every text is.
pub fn correct_programs_fit()
    ensures { CorrectProgramsFit }
{}

/// In a program that keeps the forty rules, the code of each loop's condition begins with an
/// operation. Such a condition is neither the name of a function nor the address of a private
/// variable.
pub fn conditions_begin()
    ensures { ConditionsOfLoopsBegin }
{}

/// The parts, bodies and loops of a program that keeps the forty rules are nested, only groups
/// split, and no name denotes a function that may not be called there.
pub fn correct_programs_stand_in_place()
    ensures { CorrectProgramsStandInPlace }
{}

/// A program that keeps the forty rules is in place, if the part and the rank of each `fork` give
/// one value, whichever branches are taken in them and whatever they call. Its parts, bodies and
/// loops are nested, the notes tell which statements groups run, only groups split, functions
/// return values if they have results, and no name denotes a function that may not be called there.
pub fn valid_programs_are_in_place()
    ensures { ValidProgramsAreInPlace }
{}

/// After every schedule of possible rounds of a program that keeps the forty rules and whose `fork`
/// expressions give one value each, all members of a group in lockstep have the same work left.
/// Before a branch they have the same last value.
pub fn valid_programs_have_one_program()
    ensures { ValidProgramsHaveOneProgram }
{}

/// After every schedule of possible rounds of a program that keeps the forty rules, whose `fork`
/// expressions give one value each, and whose first token begins neither a function nor a statement
/// with a frame, the members of a group in lockstep have levels that differ in `$` alone: they have
/// the same `@`, size and space of their group and of each group around it. So have processors that
/// wait at one node.
pub fn valid_programs_have_one_space()
    ensures { ValidProgramsHaveOneSpace }
{}
