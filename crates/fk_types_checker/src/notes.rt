//! The types of declared names, by token.

ghost use Rattle.std.specs.Prelude.{◌≡◌, fold, slice_set};
ghost use Rattle.std.specs.Option.{option_map};
ghost use Rattle.fk_syntax.specs.ProgramView.{declared_of, function_of};
ghost use Rattle.fk_types_structs.specs.Whole.{IsSound};
ghost use Rattle.fk_types_operators.specs.declared.values.ExpressionType.TheVariants.{Stored};
ghost use Rattle.fk_types_operators.specs.Values.{result_of};
ghost use Rattle.fk_types_forms.specs.Scope.{env_in};
ghost use Rattle.fk_types_expressions.specs.Read.{with_note};
ghost use Rattle.fk_types_obligations.specs.Pieces as p;
ghost use Rattle.fk_types_rules.specs.Noted.{declared_noted, piece_noted};

use fk_syntax::{Declared, Function};
use fk_types_forms::Scope;
use fk_types_operators::ExpressionType;
use fk_types_structs::DataType;

// Notes a type at a token.
fn note(types: &mut [Option<ExpressionType>], at: u32, kind: Option<ExpressionType>)
    ensures { types.new ≡ slice_set types.old at kind }
{
    let at = at as usize;
    if at < types.len() {
        types[at] = kind;
    }
}

// The type of a stored value.
fn stored(kind: Option<DataType>) -> Option<ExpressionType>
    ensures { result ≡ option_map Stored kind }
{
    match kind {
        Some(kind) => Some(ExpressionType::Stored(kind)),
        None => None,
    }
}

// The type of the calls of a function, by the type of its result.
fn call_type(kind: Option<DataType>) -> Option<ExpressionType>
    ensures { result ≡ option_map result_of kind }
{
    match kind {
        Some(kind) => Some(ExpressionType::of_call(&kind)),
        None => None,
    }
}

/// Notes the type of a variable or parameter at its name.
pub(crate) fn note_declared(
    scope: &Scope,
    types: &mut [Option<ExpressionType>],
    declared: &Declared,
)
    requires { IsSound scope.now.structs.now }
    ensures { types.new ≡ fold with_note types.old
        (declared_noted (env_in scope.now) (declared_of declared.now)) }
{
    let kind = stored(scope.structs.type_of(&declared.kind, declared.length));
    note(types, declared.name.at, kind);
}

/// Notes the type of the calls of a function at its name.
pub(crate) fn note_header(scope: &Scope, types: &mut [Option<ExpressionType>], function: &Function)
    requires { IsSound scope.now.structs.now }
    ensures { types.new ≡ fold with_note types.old
        (piece_noted (env_in scope.now) (p.Header (function_of function.now))) }
{
    let kind = call_type(scope.structs.type_of(&function.result, None));
    note(types, function.name.at, kind);
}
