//! The types of declared names, unless the declaration breaks a rule.

ghost use Rattle.std.specs.Prelude.{map, IfOk};
ghost use Rattle.std.specs.List.{AllZip};
ghost use Rattle.fk_syntax.specs.ProgramView.{declared_of, function_of};
ghost use Rattle.fk_types_structs.specs.Whole.{structs_in, IsSound};
ghost use Rattle.fk_types_environment.specs.Types.{HasVariableType, HasParameterType};
ghost use Rattle.fk_types_environment.specs.Types.{HasResultType, AreMemberTypes};

use fk_syntax::{Declared, Function};
use fk_types_struct_rules::{declaration_fault, parameter_fault, result_fault};
use fk_types_structs::{DataType, Structs};
use std::alloc::{AllocError, Global};

/// The type of a variable or of a member.
pub(crate) fn variable_type(structs: &Structs, declared: &Declared) -> Option<DataType>
    requires { IsSound structs.now }
    ensures { HasVariableType (structs_in structs.now) (declared_of declared.now) result }
{
    match declaration_fault(structs, declared) {
        Some(_) => None,
        None => structs.type_of(&declared.kind, declared.length),
    }
}

// The type of a parameter.
fn parameter_type(structs: &Structs, parameter: &Declared) -> Option<DataType>
    requires { IsSound structs.now }
    ensures { HasParameterType (structs_in structs.now) (declared_of parameter.now) result }
{
    match parameter_fault(structs, parameter) {
        Some(_) => None,
        None => structs.type_of(&parameter.kind, parameter.length),
    }
}

/// The type of the result of a function.
pub(crate) fn result_type(structs: &Structs, function: &Function) -> Option<DataType>
    requires { IsSound structs.now }
    ensures { HasResultType (structs_in structs.now) (function_of function.now) result }
{
    match result_fault(structs, &function.result, function.name.place) {
        Some(_) => None,
        None => structs.type_of(&function.result, None),
    }
}

/// The types of parameters, in their order.
pub(crate) fn parameter_types(
    alloc: Global,
    structs: &Structs,
    parameters: &[Declared],
) -> Result<Vec<Option<DataType>>, AllocError>
    requires { IsSound structs.now }
    ensures { IfOk result (λ types. AllZip (HasParameterType (structs_in structs.now))
        (map declared_of parameters.now) types.items) }
{
    let mut types = Vec::new(alloc);
    for parameter in parameters {
        types.push(parameter_type(structs, parameter))?;
    }
    Ok(types)
}

// The types of the members of a struct, in their order.
fn member_types(
    alloc: Global,
    structs: &Structs,
    members: &[Declared],
) -> Result<Vec<Option<DataType>>, AllocError>
    requires { IsSound structs.now }
    ensures { IfOk result (λ types. AllZip (HasVariableType (structs_in structs.now))
        (map declared_of members.now) types.items) }
{
    let mut types = Vec::new(alloc);
    for member in members {
        types.push(variable_type(structs, member))?;
    }
    Ok(types)
}

/// The types of the members of each struct.
pub(crate) fn all_member_types(
    alloc: Global,
    structs: &Structs,
) -> Result<Vec<Vec<Option<DataType>>>, AllocError>
    requires { IsSound structs.now }
    ensures { IfOk result (λ all. AllZip (AreMemberTypes (structs_in structs.now))
        (structs_in structs.now) all.items) }
{
    let mut all = Vec::new(alloc);
    let outlines = structs.outlines();
    for outline in outlines {
        all.push(member_types(alloc, structs, outline.members)?)?;
    }
    Ok(all)
}
