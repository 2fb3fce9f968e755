//! Laws of programs that keep all rules, as texts spell them, and have a layout: their numbers, and
//! where their names are used.

ghost use Rattle.fk_lower_names.specs.WordLaws.{MembersAreClose, NumbersHaveRoom};
ghost use Rattle.fk_lower_names.specs.Proper.{TextsAreProper};
ghost use Rattle.fk_lower_names.specs.OpenFrames.{NamesAreOpen};

/// The structs of a text have members, and its parameters no lengths. The tokens where group frames
/// may be ascend behind the first one, and the frames are on at most 128 levels.
pub fn texts_are_proper()
    ensures { TextsAreProper }
{}

/// The members in a program that keeps all rules are near the first words of their structs, and no
/// function has too many parameters.
pub fn members_are_close()
    ensures { MembersAreClose }
{}

/// Each operation of a program that keeps all rules, as a text spells it, and has a layout, has a
/// number, and each number that it takes has room in a word, if the numbers written in the text
/// have: addresses, the words before members and those of types, places and counts of arguments.
pub fn numbers_have_room()
    ensures { NumbersHaveRoom }
{}

/// In a program that keeps all rules, as a text spells it, and has a layout, each name is open
/// where it is used. If it means a variable of a group frame, this frame is the one that the code
/// has taken there at the level of the variable's region, and the words of the variable are in it.
pub fn names_are_open()
    ensures { NamesAreOpen }
{}
