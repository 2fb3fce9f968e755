//! Laws of texts, of their lists, and of their images.

ghost use Rattle.fk_compile.specs.Led.{ProgramsAreLed};
ghost use Rattle.fk_compile.specs.OneProgram.{AskedEvaluates, TypedEvaluates, ForksGiveValues};
ghost use Rattle.fk_compile.specs.OneProgram.{CorrectProgramsHaveOneProgram, TextsHaveOneProgram};
ghost use Rattle.fk_compile.specs.OneProgram.{TextsHaveOneSpace};
ghost use Rattle.fk_compile.specs.GroupSteps.{TextsActAsOne, TextsStepAsOne};
ghost use Rattle.fk_compile.specs.Trees.{SitesAreOwn, ProgramsStayInTrees, ListsAreOfTree};
ghost use Rattle.fk_compile.specs.ListLaws.{StraightHasNoTarget, ListsHaveBlocks};
ghost use Rattle.fk_compile.specs.ListLaws.{StepsFindValues, GroupedListsAreGenerable};
ghost use Rattle.fk_compile.specs.ListLaws.{ListsAreSmall};
ghost use Rattle.fk_compile.specs.Laws.{NeverTraps};

use fk_lower_names::laws::texts_are_proper;
use fk_parse_laws::laws::texts_are_trim;

/// In a program in place the code leads each processor from place to place.
pub fn programs_are_led()
    ensures { ProgramsAreLed }
{}

/// An expression that is as well typed code asks leaves one value or none, whichever branch is
/// taken in it, and whatever it calls.
pub fn asked_expressions_evaluate()
    ensures { AskedEvaluates }
{}

/// An expression that has a type leaves one value, or none where its type is nothing.
pub fn typed_expressions_evaluate()
    ensures { TypedEvaluates }
{}

/// In a program that keeps all rules and has a layout, each part and each rank of a `fork` gives
/// one value.
pub fn forks_give_values()
    ensures { ForksGiveValues }
{}

/// After every lawful schedule, without a stopped last round, of a program that keeps all rules and
/// has a layout, all members of a group in lockstep have the same left to do, and at a branch the
/// same last value. They have the same `@` and the same sizes of their group and of all groups
/// around it.
pub fn correct_programs_have_one_program()
    ensures { CorrectProgramsHaveOneProgram }
{}

/// In the program that a text spells, members of a group in lockstep have the same left to do,
/// after every lawful schedule whose last round isn't stopped.
pub fn texts_have_one_program()
    ensures { TextsHaveOneProgram }
{
    texts_are_trim();
    texts_are_proper();
}

/// In the program that a text spells, members of a group in lockstep have levels that differ in `$`
/// alone: they have the same `@`, size and space for their group and for each group around it. This
/// also holds of those who wait at one node.
pub fn texts_have_one_space()
    ensures { TextsHaveOneSpace }
{
    texts_are_trim();
    texts_are_proper();
}

/// In the program that a text spells, the members of a group in lockstep do equally many
/// operations in a round without a fault. They come to the same request, to the same step of the
/// tree, or to none.
pub fn texts_act_as_one()
    ensures { TextsActAsOne }
{
    texts_are_trim();
    texts_are_proper();
}

/// In the program that a text spells, in a round without a fault in which the members of one group
/// in lockstep alone touch a word, all who touch it do so by one operation. Reads answer the former
/// word, writes leave the value of the highest writer, and each multiprefix answers the former word
/// combined with the values of the lower members in ascending order.
pub fn texts_step_as_one()
    ensures { TextsStepAsOne }
{
    texts_are_trim();
    texts_are_proper();
}

/// No two operations in the list of a text have one site.
pub fn sites_are_own()
    ensures { SitesAreOwn }
{}

/// In every run of the list of a program that keeps all rules and has a layout, each processor is
/// at one node of the tree of groups, as its operations and its levels tell, and the members of a
/// group in lockstep are at one index of the list and have one space. This holds after every
/// schedule of possible rounds in which each processor does one operation at most.
pub fn programs_stay_in_trees()
    ensures { ProgramsStayInTrees }
{}

/// The blocks of the list of a text of at most 16,000 operations have at most 256,000 words, if
/// each block is counted with its greatest length.
pub fn lists_are_small()
    ensures { ListsAreSmall }
{}

/// In the flat list of code an operation that goes straight on has the target 0.
pub fn straight_has_no_target()
    ensures { StraightHasNoTarget }
{}

/// Each operation of a flat list whose operations go on in the list has a block, and its target is
/// in the list.
pub fn lists_have_blocks()
    ensures { ListsHaveBlocks }
{}

/// Where each operation of a list finds the values that it needs, each step of a group finds the
/// value that it looks at.
pub fn steps_find_values()
    ensures { StepsFindValues }
{}

/// Code can be made of a flat list that can have groups, has blocks and leads on, with the words
/// that are live in it and the levels that are found for it.
pub fn grouped_lists_are_generable()
    ensures { GroupedListsAreGenerable }
{}

/// The flat list of a program that keeps all rules and has a layout, with the depths and sites of
/// its text and the levels that are found for it, keeps its processors in the tree of groups, as
/// the laws of machines require.
pub fn lists_are_of_tree()
    ensures { ListsAreOfTree }
{}

/// A machine that runs an image of a text never traps: it goes on, has finished, or has faulted
/// where the text's program faults.
pub fn never_traps()
    ensures { NeverTraps }
{}
