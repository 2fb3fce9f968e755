//! The rules that values break by the type that they must have.

ghost use Rattle.std.specs.Prelude.{◌≡◌, ◌⊎◌, ◌↔◌, Some, None, IsSome, IsTrue};
ghost use Rattle.fk_syntax.specs.Tree.{Tree};
ghost use Rattle.fk_syntax.specs.View.{tree_of, type_of};
ghost use Rattle.fk_syntax.specs.ProgramView.{declared_of};
ghost use Rattle.fk_check_rules.specs.Least.{IsLeast};
ghost use Rattle.fk_types_structs.specs.Whole.{IsSound};
ghost use Rattle.fk_types_struct_rules.specs.Declarations.{IsStruct};
ghost use Rattle.fk_types_judgments.specs.Term.{Term, term_of};
ghost use Rattle.fk_types_judgments.specs.Names.{Env};
ghost use Rattle.fk_types_forms.specs.Parts.{IsPart};
ghost use Rattle.fk_types_forms.specs.Scope.{env_in};
ghost use Rattle.fk_types_rules.specs.Pieces as b;
ghost use Rattle.fk_types_rules.specs.Pieces.{ConversionBreaks, InitialBreaks, FileInitialBreaks};
ghost use Rattle.fk_types_rules.specs.Pieces.{UsedBreaks, ReturnBreaks};
ghost use Rattle.fk_types_rules.specs.Constant.{ConstantBreaks};

use crate::constant::is_more;
use fk_check_rules::{Fault, Rule, fault_if, first_of};
use fk_syntax::{Declared, Expr, Place, Spot, TypeName};
use fk_types_forms::{Part, Scope};
use fk_types_obligations::Role;
use fk_types_operators::{ExpressionType, Operand, Value, converts};
use fk_types_struct_rules::{is_struct, is_void};
use fk_types_structs::DataType;

// The value type of a stored value that is neither an array nor a struct.
fn scalar(kind: Option<DataType>) -> Option<Value>
    ensures { result ≡ b.scalar kind }
{
    let kind = kind?;
    if kind.length.is_some() {
        return None;
    }
    ExpressionType::Stored(kind).value()
}

// Whether there are two types, and the first doesn't convert to the second.
fn is_not_converted(from: Option<Operand>, to: Option<Value>) -> bool
    ensures { result ≡ b.is_not_converted from to }
{
    match (from, to) {
        (Some(from), Some(to)) => !converts(from, to),
        _ => false,
    }
}

// The fault of a value that doesn't convert to a type.
fn conversion_fault(part: &Part, kind: Option<DataType>, place: Place) -> Option<Fault>
    ensures { (env : Env) (term : Term) → IsPart env term part.now
        → IsLeast (ConversionBreaks env place kind term) result }
{
    let is_wrong = is_not_converted(part.operand(), scalar(kind));
    fault_if(Rule::NoConversion, place, is_wrong)
}

// Whether a variable is an array or a struct.
fn is_whole(variable: &Declared) -> bool
    ensures { IsTrue result ↔ (IsSome (declared_of variable.now).length
        ⊎ IsStruct (declared_of variable.now).kind) }
{
    variable.length.is_some() || is_struct(&variable.kind)
}

// The fault of an initial value of an array or a struct.
fn whole_fault(variable: &Declared) -> Option<Fault>
    ensures { IsLeast (b.WholeInitialBreaks (declared_of variable.now)) result }
{
    fault_if(Rule::WholeAssigned, variable.name.place, is_whole(variable))
}

/// The fault in a variable's initial value, whose part is `part`.
pub(crate) fn initial_fault(scope: &Scope, variable: &Declared, part: &Part) -> Option<Fault>
    requires { IsSound scope.now.structs.now }
    ensures { (term : Term) → IsPart (env_in scope.now) term part.now
        → IsLeast (InitialBreaks (env_in scope.now) (declared_of variable.now) term) result }
{
    let kind = scope.structs.type_of(&variable.kind, variable.length);
    let wrong = conversion_fault(part, kind, variable.name.place);
    let stored = first_of(wrong, whole_fault(variable));
    first_of(part.as_value(), stored)
}

// The fault of an initial value that isn't allowed outside functions.
fn constant_fault(scope: &Scope, value: &Expr, part: &Part) -> Option<Fault>
    ensures { IsPart (env_in scope.now) (term_of (tree_of value.now)) part.now
        → IsLeast (ConstantBreaks (env_in scope.now) (term_of (tree_of value.now))) result }
{
    fault_if(Rule::NotConstant, part.first, is_more(scope, value))
}

/// The fault in the initial value of a variable of file scope. `part` is the part of that value.
pub(crate) fn file_initial_fault(
    scope: &Scope,
    variable: &Declared,
    value: &Expr,
    part: &Part,
) -> Option<Fault>
    requires { IsSound scope.now.structs.now }
    ensures { IsPart (env_in scope.now) (term_of (tree_of value.now)) part.now
        → IsLeast (FileInitialBreaks (env_in scope.now) (declared_of variable.now)
        (term_of (tree_of value.now))) result }
{
    let initial = initial_fault(scope, variable, part);
    first_of(initial, constant_fault(scope, value, part))
}

/// The fault of an expression by its use.
pub(crate) fn role_fault(role: Role, part: &Part) -> Option<Fault>
    ensures { (env : Env) (term : Term) → IsPart env term part.now
        → IsLeast (UsedBreaks env role term) result }
{
    match role {
        Role::Condition => part.as_condition(),
        Role::Alone => part.as_statement(),
        Role::Word => part.as_value(),
    }
}

/// The fault of a `return` with a value, in a function whose result has this type.
pub(crate) fn given_fault(scope: &Scope, gives: &TypeName, spot: Spot, part: &Part) -> Option<Fault>
    requires { IsSound scope.now.structs.now }
    ensures { (value : Tree) → IsPart (env_in scope.now) (term_of value) part.now
        → IsLeast (ReturnBreaks (env_in scope.now) (type_of gives.now) spot (Some value)) result }
{
    let kind = scope.structs.type_of(gives, None);
    let wrong = conversion_fault(part, kind, spot.place);
    let unwanted = fault_if(Rule::WrongReturn, spot.place, is_void(gives));
    let given = first_of(wrong, unwanted);
    first_of(part.as_value(), given)
}

/// The fault of a `return` without a value, in a function whose result has this type.
pub(crate) fn lacking_fault(gives: &TypeName, spot: Spot) -> Option<Fault>
    ensures { (env : Env)
        → IsLeast (ReturnBreaks env (type_of gives.now) spot None) result }
{
    fault_if(Rule::WrongReturn, spot.place, !is_void(gives))
}
