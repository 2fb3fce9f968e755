//! Laws of the numbers, the trees, the order and the levels of texts.

ghost use Rattle.fk_parse_laws.specs.Words.{TextsHaveWords};
ghost use Rattle.fk_parse_laws.specs.Trim.{TextsAreTrim};
ghost use Rattle.fk_parse_laws.specs.Order.{FramesInOrder};
ghost use Rattle.fk_parse_laws.specs.Program.{FramesStandInOrder, FramesStandBehindFirst};
ghost use Rattle.fk_parse_laws.specs.Levels.{TextsAreShallow};

/// If the tokens of a text spell a program, its numbers are below 2^32: values, characters, lengths
/// and the bytes of its texts.
pub fn texts_have_words()
    ensures { TextsHaveWords }
{}

/// If the tokens of a text spell a program, each chain in it has a sign, each expression with
/// suffixes has at least one, and no parameter has an initial value.
pub fn texts_are_trim()
    ensures { TextsAreTrim }
{}

/// If the tokens of a tree ascend, its group frames are in the order of their tokens. At one token
/// the frame of an `else` comes after the other one.
pub fn frames_in_order()
    ensures { FramesInOrder }
{}

/// The group frames of each program that tokens spell are in the order of their tokens, whatever
/// its types are and wherever groups split.
pub fn frames_stand_in_order()
    ensures { FramesStandInOrder }
{}

/// No group frame is at the first token of a program.
pub fn frames_stand_behind_first()
    ensures { FramesStandBehindFirst }
{}

/// The group frames of each text are on at most 128 levels, whatever its types are and wherever
/// groups split.
pub fn texts_are_shallow()
    ensures { TextsAreShallow }
{}
