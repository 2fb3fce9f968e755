//! Laws of the definitions.

ghost use Rattle.fk_parse.specs.Parses.{OneProgram, OneText, OneTree};
ghost use Rattle.fk_parse.specs.Refusals.{OneFault, TreeOrFault};

/// Any tokens have exactly one answer as a text: its items, or the reason why there are none.
pub fn one_text()
    ensures { OneText }
{}

/// Tokens spell at most one list of items, however deep they nest. A level past the bound leads to
/// a refusal, and not to another tree.
pub fn one_tree()
    ensures { OneTree }
{}

/// Tokens spell at most one program.
pub fn one_program()
    ensures { OneProgram }
{}

/// Any tokens either spell a program or are refused, and never both, if there is enough memory.
pub fn tree_or_fault()
    ensures { TreeOrFault }
{}

/// Tokens are refused by at most one fault, if there is enough memory.
pub fn one_fault()
    ensures { OneFault }
{}
