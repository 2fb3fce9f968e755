//! Laws of the code of programs, of programs that keep all rules and have a layout, and of their
//! lists.

ghost use Rattle.fk_lower_laws.specs.TypedLaws.{FormsAreTyped, MainHasItsPlace};
ghost use Rattle.fk_lower_laws.specs.Typed.{TypedIsAsked};
ghost use Rattle.fk_lower_laws.specs.LoweringLaws.{BindingsGoUp, TextsCanBeLaid, FirstsAreFew};
ghost use Rattle.fk_lower_laws.specs.AskedLaws.{CorrectProgramsAreAsked, MainsHaveTheirPlace};
ghost use Rattle.fk_lower_laws.specs.FreeLaws.{FlatListsAreApart, ListsGoOnWithin};
ghost use Rattle.fk_lower_laws.specs.Suiting.{LiveWordsSuit};
ghost use Rattle.fk_lower_laws.specs.RoomLaws.{ValuesHaveRoom, NamesHaveWords};
ghost use Rattle.fk_lower_laws.specs.RoomLaws.{CorrectProgramsHaveRoom};
ghost use Rattle.fk_lower_laws.specs.Named.{CodeNamesWords};
ghost use Rattle.fk_lower_laws.specs.HeightLaws.{ListsHaveHeights};
ghost use Rattle.fk_lower_laws.specs.Laws.{CorrectListsAreSteady, CorrectListsHaveFrames};
ghost use Rattle.fk_lower_laws.specs.Laws.{LoweredListsCanHaveGroups};

/// The code of a program whose parts, bodies and loops are nested is well typed, if there is a
/// value wherever one is needed, and a place where something is assigned, each call has its
/// arguments, each word of a group frame is named where the frame is taken, the frame of each part
/// is on its level, and each `start` is one of the statements of `main`.
pub fn forms_are_typed()
    ensures { FormsAreTyped }
{}

/// The binding of `main` means `main`, and every other one means a function that is called, if
/// there is a `main` and no other function has its binding.
pub fn main_has_its_place()
    ensures { MainHasItsPlace }
{}

/// An expression that has a type is as well typed code asks, and is as its type says, if its names,
/// its members and its calls are.
pub fn typed_is_asked()
    ensures { TypedIsAsked }
{}

/// The bindings of the functions go up in the order of the text, from 0 on.
pub fn bindings_go_up()
    ensures { BindingsGoUp }
{}

/// The functions of a text can be laid, each at its binding, if each number of an operation has
/// room in a word: at most 16,000 operations are few enough for their list.
pub fn texts_can_be_laid()
    ensures { TextsCanBeLaid }
{}

/// There are at most 56 private variables of file scope: they are among the words of the private
/// frame of `main`, which has at most 64, and 8 others besides them.
pub fn firsts_are_few()
    ensures { FirstsAreFew }
{}

/// A program that keeps all rules, as a text spells it, and has a layout, has a value wherever one
/// is needed, and a place where something is assigned. Its calls are of functions with their
/// arguments, its constant addresses are those of shared data, and it returns values exactly where
/// its functions give them.
pub fn correct_programs_are_asked()
    ensures { CorrectProgramsAreAsked }
{}

/// The binding of `main` means `main`, and every other one means a function that is called.
pub fn mains_have_their_place()
    ensures { MainsHaveTheirPlace }
{}

/// No index of the flat list of a program is in the code of two functions.
pub fn flat_lists_are_apart()
    ensures { FlatListsAreApart }
{}

/// The flat list of a program with well typed code goes on within itself: its jumps lead to
/// operations, only an end goes on outside it, and its `main` begins in it.
pub fn lists_go_on_within()
    ensures { ListsGoOnWithin }
{}

/// A flat list of well typed functions, whose parts are nested and whose private words, values and
/// levels have room in frames, suits frames that keep its live words, and that have room for its
/// levels.
pub fn live_words_suit()
    ensures { LiveWordsSuit }
{}

/// A program that keeps all rules, as a text spells it, and has a layout, has room in the frame of
/// each function for its private words, for its values and for the levels of its parts.
pub fn values_have_room()
    ensures { ValuesHaveRoom }
{}

/// The code of a program names private words that exist, and its calls have few arguments and room
/// for their openings, if the names of its text have their words. The words of group frames that it
/// names are below 2^21 if its frames are small.
pub fn code_names_words()
    ensures { CodeNamesWords }
{}

/// A program that keeps all rules and has a layout has code that names private words that exist:
/// each is below the number of its function's own words, or among those of file scope.
pub fn names_have_words()
    ensures { NamesHaveWords }
{}

/// A program that keeps all rules, as a text spells it, and has a layout, has room in the frame of
/// each function for its private words, its values and the levels of its parts, and for a result
/// after each call.
pub fn correct_programs_have_room()
    ensures { CorrectProgramsHaveRoom }
{}

/// A list whose operations have the depths that a text gives for their sites has the heights of the
/// text's code, if that is well typed and its parts are nested.
pub fn lists_have_heights()
    ensures { ListsHaveHeights }
{}

/// A flat list of a program that keeps all rules, as a text spells it, and has a layout, goes on
/// within itself from `main` on, and may do each operation in every run, also with groups.
pub fn correct_lists_are_steady()
    ensures { CorrectListsAreSteady }
{}

/// A flat list of a program that keeps all rules, as a text spells it, and has a layout, with the
/// depths of its code and its live words, suits frames that keep these words and have room for its
/// levels.
pub fn correct_lists_have_frames()
    ensures { CorrectListsHaveFrames }
{}

/// A flat list of a program that keeps all rules, as a text spells it, and has a layout, with the
/// depths that lowering gives for the text, has the depths of all runs, finds the values that each
/// operation needs, is steady, tells its nests, and has frames that keep its live words.
pub fn lowered_lists_can_have_groups()
    ensures { LoweredListsCanHaveGroups }
{}
