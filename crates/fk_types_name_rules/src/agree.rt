//! Whether the headers of a function agree.

ghost use Rattle.std.specs.Prelude.{◌↔◌, IsTrue, map};
ghost use Rattle.fk_syntax.specs.View.{base_of, type_of};
ghost use Rattle.fk_syntax.specs.ProgramView.{declared_of, function_of};
ghost use Rattle.fk_types_name_rules.specs.Headers.{IsSameBase, IsSameType, IsSameParameter};
ghost use Rattle.fk_types_name_rules.specs.Headers.{AreSameParameters, Agree};

use fk_syntax::{Base, Declared, Function, TypeName};

// Whether two types have the same base.
fn is_same_base<'i, 't>(base: &'i Base<'t>, other: &'i Base<'t>) -> bool
    ensures { IsTrue result ↔ IsSameBase (base_of base.now) (base_of other.now) }
{
    match base {
        Base::Int => matches!(other, Base::Int),
        Base::Unsigned => matches!(other, Base::Unsigned),
        Base::Void => matches!(other, Base::Void),
        Base::Struct(name) => match other {
            Base::Struct(same) => same.bytes == name.bytes,
            Base::Int | Base::Unsigned | Base::Void => false,
        },
    }
}

// Whether two types are spelled alike.
fn is_same_type<'i, 't>(kind: &'i TypeName<'t>, other: &'i TypeName<'t>) -> bool
    ensures { IsTrue result ↔ IsSameType (type_of kind.now) (type_of other.now) }
{
    is_same_base(&kind.base, &other.base) && other.stars == kind.stars
}

// Whether two parameters have the same type and sharing.
fn is_same_parameter<'i, 't>(parameter: &'i Declared<'t>, other: &'i Declared<'t>) -> bool
    ensures { IsTrue result
        ↔ IsSameParameter (declared_of parameter.now) (declared_of other.now) }
{
    other.shared == parameter.shared
        && is_same_type(&parameter.kind, &other.kind)
        && other.length == parameter.length
}

// Whether there are equally many parameters, with the same types and sharing.
fn are_same_parameters<'i, 't>(parameters: &'i [Declared<'t>], others: &'i [Declared<'t>]) -> bool
    ensures { IsTrue result
        ↔ AreSameParameters (map declared_of parameters.now) (map declared_of others.now) }
{
    if parameters.len() != others.len() {
        return false;
    }
    for (at, parameter) in parameters.iter().enumerate() {
        if !is_same_parameter(parameter, &others[at]) {
            return false;
        }
    }
    true
}

/// Whether two headers agree in mode, result and parameters.
pub(crate) fn agree<'i, 't>(header: &'i Function<'t>, other: &'i Function<'t>) -> bool
    ensures { IsTrue result ↔ Agree (function_of header.now) (function_of other.now) }
{
    other.mode == header.mode
        && is_same_type(&header.result, &other.result)
        && are_same_parameters(&header.params, &other.params)
}
