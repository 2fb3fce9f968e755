//! The rules that the pieces of a text break, and the types of its tokens.

ghost use Rattle.std.specs.Prelude.{◌≡◌, fold, map};
ghost use Rattle.std.specs.Option.{option_map};
ghost use Rattle.fk_syntax.specs.View.{tree_of, type_of};
ghost use Rattle.fk_syntax.specs.ProgramView.{declared_of, function_of};
ghost use Rattle.fk_check_rules.specs.Least.{IsLeast, among};
ghost use Rattle.fk_types_structs.specs.Whole.{IsSound};
ghost use Rattle.fk_types_forms.specs.Scope.{env_in};
ghost use Rattle.fk_types_expressions.specs.Read.{with_note};
ghost use Rattle.fk_types_obligations.specs.Pieces as p;
ghost use Rattle.fk_types_obligations.specs.View.{piece_of};
ghost use Rattle.fk_types_rules.specs.Noted.{pieces_noted};
ghost use Rattle.fk_types_rules.specs.Pieces.{PieceBreaks};
ghost use Rattle.fk_types_checker.specs.Read.{IsPieceRead};

use crate::notes::{note_declared, note_header};
use crate::values::{file_initial_fault, given_fault, initial_fault, lacking_fault, role_fault};
use fk_check_rules::{Fault, first_of};
use fk_syntax::{Declared, Expr, Function, Spot, TypeName};
use fk_types_expressions::expression;
use fk_types_forms::Scope;
use fk_types_obligations::{Piece, Role};
use fk_types_operators::ExpressionType;
use fk_types_struct_rules::{declaration_fault, parameter_fault, result_fault};

fn variable_fault(
    scope: &Scope,
    types: &mut [Option<ExpressionType>],
    variable: &Declared,
) -> Option<Fault>
    requires { IsSound scope.now.structs.now }
    ensures { IsPieceRead (env_in scope.now) (p.Variable (declared_of variable.now))
        types.old types.new result }
{
    note_declared(scope, types, variable);
    let declaration = declaration_fault(scope.structs, variable);
    match &variable.first {
        Some(value) => {
            let part = expression(scope, types, value);
            first_of(declaration, initial_fault(scope, variable, &part))
        }
        None => declaration,
    }
}

fn file_variable_fault(
    scope: &Scope,
    types: &mut [Option<ExpressionType>],
    variable: &Declared,
) -> Option<Fault>
    requires { IsSound scope.now.structs.now }
    ensures { IsPieceRead (env_in scope.now) (p.FileVariable (declared_of variable.now))
        types.old types.new result }
{
    note_declared(scope, types, variable);
    let declaration = declaration_fault(scope.structs, variable);
    match &variable.first {
        Some(value) => {
            let part = expression(scope, types, value);
            let initial = file_initial_fault(scope, variable, value, &part);
            first_of(declaration, initial)
        }
        None => declaration,
    }
}

fn parameter_read(
    scope: &Scope,
    types: &mut [Option<ExpressionType>],
    parameter: &Declared,
) -> Option<Fault>
    requires { IsSound scope.now.structs.now }
    ensures { IsPieceRead (env_in scope.now) (p.Parameter (declared_of parameter.now))
        types.old types.new result }
{
    note_declared(scope, types, parameter);
    parameter_fault(scope.structs, parameter)
}

fn header_fault(
    scope: &Scope,
    types: &mut [Option<ExpressionType>],
    function: &Function,
) -> Option<Fault>
    requires { IsSound scope.now.structs.now }
    ensures { IsPieceRead (env_in scope.now) (p.Header (function_of function.now))
        types.old types.new result }
{
    note_header(scope, types, function);
    result_fault(scope.structs, &function.result, function.name.place)
}

fn used_fault(
    scope: &Scope,
    types: &mut [Option<ExpressionType>],
    role: Role,
    value: &Expr,
) -> Option<Fault>
    requires { IsSound scope.now.structs.now }
    ensures { IsPieceRead (env_in scope.now) (p.Used role (tree_of value.now))
        types.old types.new result }
{
    let part = expression(scope, types, value);
    role_fault(role, &part)
}

fn return_fault(
    scope: &Scope,
    types: &mut [Option<ExpressionType>],
    gives: &TypeName,
    spot: Spot,
    value: &Option<Expr>,
) -> Option<Fault>
    requires { IsSound scope.now.structs.now }
    ensures { IsPieceRead (env_in scope.now)
        (p.Return (type_of gives.now) spot (option_map tree_of value.now))
        types.old types.new result }
{
    match value {
        Some(value) => {
            let part = expression(scope, types, value);
            given_fault(scope, gives, spot, &part)
        }
        None => lacking_fault(gives, spot),
    }
}

// The first fault in a piece. Notes the types in it by token.
fn piece_fault(scope: &Scope, types: &mut [Option<ExpressionType>], piece: Piece) -> Option<Fault>
    requires { IsSound scope.now.structs.now }
    ensures { IsPieceRead (env_in scope.now) (piece_of piece.entry) types.old types.new result }
{
    match piece {
        Piece::FileVariable(variable) => file_variable_fault(scope, types, variable),
        Piece::Variable(variable) => variable_fault(scope, types, variable),
        Piece::Parameter(parameter) => parameter_read(scope, types, parameter),
        Piece::Header(function) => header_fault(scope, types, function),
        Piece::Used(role, value) => used_fault(scope, types, role, value),
        Piece::Return(gives, spot, value) => return_fault(scope, types, gives, spot, value),
    }
}

/// The first rule that pieces of a text break, by its place and then by its number. Declarations
/// break rules by their types, expressions by the types of their parts and by their use, and
/// initial values and `return` by the type that they must have.
///
/// The types in the pieces are noted in a table by token: those of expressions at their signs,
/// names and numbers, that of a variable or parameter at its name, and that of the calls of a
/// function at its name. It takes no memory, and time linear in the pieces.
pub fn pieces_fault(
    scope: &Scope,
    types: &mut [Option<ExpressionType>],
    pieces: &[Piece],
) -> Option<Fault>
    requires sound { IsSound scope.now.structs.now }
    ensures least { IsLeast
        (among (λ i. PieceBreaks (env_in scope.now)) (map piece_of pieces.now)) result }
    ensures types { types.new
        ≡ fold with_note types.old (pieces_noted (env_in scope.now) (map piece_of pieces.now)) }
{
    let mut fault = None;
    for piece in pieces {
        fault = first_of(fault, piece_fault(scope, types, *piece));
    }
    fault
}
