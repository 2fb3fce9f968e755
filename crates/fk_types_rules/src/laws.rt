//! Laws of the definitions, and of the tokens of a program.

ghost use Rattle.fk_types_rules.specs.Laws.{AreTypeRules, BreakTheSame};
ghost use Rattle.fk_syntax.specs.WellFormed.{IsWellFormed};
ghost use Rattle.fk_types_operators.specs.declared.values.ExpressionType.TheVariants.{Computed};
ghost use Rattle.fk_types_operators.specs.declared.values.Value.TheVariants.{Int};
ghost use Rattle.fk_types_judgments.specs.Names.{Env};
ghost use Rattle.fk_types_rules.specs.Noted.{HasTypeAt};
ghost use Rattle.fk_types_rules.specs.Example.{example};
ghost use Rattle.fk_types_rules.specs.Unique.{TokensAreApart, TablesHaveTypes};

/// The rules about names and types that a program breaks are all among the rules 1 to 20.
pub fn only_type_rules()
    ensures { AreTypeRules }
{}

/// The rules about names and types that a program breaks depend only on the program: two
/// environments that are right about it have the same broken rules.
pub fn right_environments()
    ensures { BreakTheSame }
{}

/// A token of a well-formed program belongs to at most one declaration or reference.
pub fn tokens_are_apart()
    ensures { TokensAreApart }
{}

/// A token of a well-formed program has at most one type.
pub fn tables_have_types()
    ensures { TablesHaveTypes }
{}

/// `int x = 2;` is well formed, and the type of its number is `int`.
pub fn example_has_a_type()
    ensures well_formed { IsWellFormed example }
    ensures typed { (env : Env) → HasTypeAt env example 3 (Computed Int) }
{}
