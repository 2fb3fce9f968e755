//! What each declaration declares.

ghost use Rattle.std.specs.Prelude.{◌≡◌, map, codes, IfOk};
ghost use Rattle.std.specs.List.{AllZip};
ghost use Rattle.std.specs.Option.{option_map};
ghost use Rattle.fk_syntax.specs.ProgramView.{function_of};
ghost use Rattle.fk_types_structs.specs.Whole.{structs_in, IsSound};
ghost use Rattle.fk_types_names.specs.Outline.{Header};
ghost use Rattle.fk_types_names.specs.View.{declaration_of};
ghost use Rattle.fk_types_operators.specs.Values.{result_of};
ghost use Rattle.fk_types_judgments.specs.Names.{is_text};
ghost use Rattle.fk_types_environment.specs.Known.{HasSignature, IsKnown};

use crate::types::{parameter_types, result_type, variable_type};
use fk_syntax::Function;
use fk_types_forms::{Entity, Signature};
use fk_types_names::Declaration;
use fk_types_operators::ExpressionType;
use fk_types_structs::{DataType, Structs};
use std::alloc::{AllocError, Global};

// The type of the calls of a function, by the type of its result.
fn given(kind: Option<DataType>) -> Option<ExpressionType>
    ensures { result ≡ option_map result_of kind }
{
    match kind {
        Some(kind) => Some(ExpressionType::of_call(&kind)),
        None => None,
    }
}

// The parameters and the result of a function.
fn signature(alloc: Global, structs: &Structs, function: &Function) -> Result<Signature, AllocError>
    requires { IsSound structs.now }
    ensures { IfOk result (HasSignature (structs_in structs.now) (function_of function.now)) }
{
    let parameters = parameter_types(alloc, structs, &function.params)?;
    let gives = given(result_type(structs, function));
    Ok(Signature {
        parameters,
        result: gives,
    })
}

// Whether the name of a function is `main`.
fn is_main(function: &Function) -> bool
    ensures { result ≡ is_text (function_of function.now).name.bytes (codes "main") }
{
    function.name.bytes == b"main".as_slice()
}

// What the header of a function declares.
fn known_function(
    alloc: Global,
    structs: &Structs,
    function: &Function,
) -> Result<Entity, AllocError>
    requires { IsSound structs.now }
    ensures { IfOk result
        (IsKnown (structs_in structs.now) (Header (function_of function.now))) }
{
    let signature = signature(alloc, structs, function)?;
    if is_main(function) {
        return Ok(Entity::Main);
    }
    Ok(Entity::Function(signature))
}

// What a declaration declares.
fn known_of(
    alloc: Global,
    structs: &Structs,
    declaration: &Declaration,
) -> Result<Entity, AllocError>
    requires { IsSound structs.now }
    ensures { IfOk result
        (IsKnown (structs_in structs.now) (declaration_of declaration.now)) }
{
    match declaration {
        Declaration::Variable(variable) => Ok(Entity::Variable(variable_type(structs, variable))),
        Declaration::Function(function) => known_function(alloc, structs, function),
    }
}

/// What each of some declarations declares.
pub(crate) fn all_known(
    alloc: Global,
    structs: &Structs,
    declarations: &[Declaration],
) -> Result<Vec<Entity>, AllocError>
    requires { IsSound structs.now }
    ensures { IfOk result (λ known. AllZip (IsKnown (structs_in structs.now))
        (map declaration_of declarations.now) known.items) }
{
    let mut known = Vec::with_capacity(alloc, declarations.len())?;
    for declaration in declarations {
        known.push(known_of(alloc, structs, declaration)?)?;
    }
    Ok(known)
}
