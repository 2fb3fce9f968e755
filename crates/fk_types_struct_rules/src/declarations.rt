//! The rules about written types: those of a variable, a member, a parameter, a result or a
//! `sizeof`.

ghost use Rattle.std.specs.Prelude.{◌≡◌, ◌↔◌, ◌⊎◌, List, IsTrue};
ghost use Rattle.fk_syntax.specs.View.{type_of};
ghost use Rattle.fk_syntax.specs.ProgramView.{declared_of};
ghost use Rattle.fk_check_rules.specs.declared.rule.Rule.TheVariants as rules;
ghost use Rattle.fk_check_rules.specs.Least.{IsLeast, only};
ghost use Rattle.fk_types_structs.specs.Types.{StructTree};
ghost use Rattle.fk_types_structs.specs.Whole.{structs_in, IsSound};
ghost use Rattle.fk_types_struct_rules.specs.Declarations.{NamesNoStruct, IsVoid, HasWrongLength};
ghost use Rattle.fk_types_struct_rules.specs.Declarations.{IsTooLarge, HasLargeType, IsStruct, At};
ghost use Rattle.fk_types_struct_rules.specs.Declarations.{DeclarationBreaks, ParameterBreaks};
ghost use Rattle.fk_types_struct_rules.specs.Declarations.{ResultBreaks, SizeofBreaks};

use fk_check_rules::{Fault, Rule, first_of};
use fk_num::MOST_DATA_WORDS;
use fk_syntax::{Base, Declared, Place, TypeName};
use fk_types_structs::{DataType, Structs};

/// The fault that a type names an undeclared struct, at its name.
pub fn no_struct(structs: &Structs, kind: &TypeName) -> Option<Fault>
    requires { IsSound structs.now }
    ensures { IsLeast (only rules.NoStruct
        (NamesNoStruct (structs_in structs.now) (type_of kind.now))) result }
{
    match kind.base {
        Base::Struct(name) if structs.find(name.bytes).is_none() => Some(Fault {
            place: name.place,
            rule: Rule::NoStruct,
        }),
        _ => None,
    }
}

/// Whether a type is `void`, and not a pointer.
pub fn is_void(kind: &TypeName) -> bool
    ensures { IsTrue result ↔ IsVoid (type_of kind.now) }
{
    matches!(
        kind,
        TypeName {
            base: Base::Void,
            stars: 0
        }
    )
}

/// Whether a type is a struct, and not a pointer.
pub fn is_struct(kind: &TypeName) -> bool
    ensures { IsTrue result ↔ IsStruct (type_of kind.now) }
{
    match kind.base {
        Base::Struct(_) => kind.stars == 0,
        Base::Int | Base::Unsigned | Base::Void => false,
    }
}

// Whether the length of an array is 0 or too large.
fn has_wrong_length(declared: &Declared) -> bool
    ensures { IsTrue result ↔ HasWrongLength (declared_of declared.now) }
{
    match declared.length {
        Some(length) => length == 0 || length > MOST_DATA_WORDS,
        None => false,
    }
}

/// Whether a type has too many words.
pub(crate) fn is_too_large(structs: &Structs, kind: &DataType) -> bool
    requires { IsSound structs.now }
    ensures { IsTrue result ↔ IsTooLarge (structs_in structs.now) kind.now }
{
    match structs.words(kind) {
        Some(words) => words > MOST_DATA_WORDS,
        None => false,
    }
}

// Whether a declaration has no length and its type isn't a struct. It has at most one word.
fn is_small(declared: &Declared) -> bool
    ensures { IsTrue result
        → (structs : List StructTree) → ¬ HasLargeType structs (declared_of declared.now) }
{
    match declared.length {
        Some(_) => false,
        None => !is_struct(&declared.kind),
    }
}

// Whether the type of a declaration has too many words.
fn has_large_type(structs: &Structs, declared: &Declared) -> bool
    requires { IsSound structs.now }
    ensures { IsTrue result ↔ HasLargeType (structs_in structs.now) (declared_of declared.now) }
{
    if is_small(declared) {
        return false;
    }
    match structs.type_of(&declared.kind, declared.length) {
        Some(kind) => is_too_large(structs, &kind),
        None => false,
    }
}

// The fault that a type is `void`.
fn void(kind: &TypeName, place: Place) -> Option<Fault>
    ensures { IsLeast (only rules.NoVariable (At place (IsVoid (type_of kind.now)))) result }
{
    if is_void(kind) {
        return Some(Fault {
            place,
            rule: Rule::NoVariable,
        });
    }
    None
}

// The fault that a type is a struct.
fn whole_struct(kind: &TypeName, place: Place) -> Option<Fault>
    ensures { IsLeast (only rules.NoVariable (At place (IsStruct (type_of kind.now)))) result }
{
    if is_struct(kind) {
        return Some(Fault {
            place,
            rule: Rule::NoVariable,
        });
    }
    None
}

// The fault that a declaration has a wrong length or too many words.
fn wrong_size(structs: &Structs, declared: &Declared) -> Option<Fault>
    requires { IsSound structs.now }
    ensures { IsLeast (only rules.WrongSize (At (declared_of declared.now).name.place
        (HasWrongLength (declared_of declared.now)
        ⊎ HasLargeType (structs_in structs.now) (declared_of declared.now)))) result }
{
    if has_wrong_length(declared) || has_large_type(structs, declared) {
        return Some(Fault {
            place: declared.name.place,
            rule: Rule::WrongSize,
        });
    }
    None
}

/// The first fault of a declaration by its type and length alone: an undeclared struct, `void`, or
/// a wrong length or size.
pub fn declaration_fault(structs: &Structs, declared: &Declared) -> Option<Fault>
    requires { IsSound structs.now }
    ensures { IsLeast
        (DeclarationBreaks (structs_in structs.now) (declared_of declared.now)) result }
{
    let size = wrong_size(structs, declared);
    let later = first_of(void(&declared.kind, declared.name.place), size);
    first_of(no_struct(structs, &declared.kind), later)
}

/// The first fault of a parameter by its type alone: a fault of any declaration, or a struct.
pub fn parameter_fault(structs: &Structs, parameter: &Declared) -> Option<Fault>
    requires { IsSound structs.now }
    ensures { IsLeast
        (ParameterBreaks (structs_in structs.now) (declared_of parameter.now)) result }
{
    let whole = whole_struct(&parameter.kind, parameter.name.place);
    first_of(declaration_fault(structs, parameter), whole)
}

/// The first fault of the result of a function by its type: an undeclared struct, or a struct that
/// isn't a pointer. `place` is that of the function's name.
pub fn result_fault(structs: &Structs, kind: &TypeName, place: Place) -> Option<Fault>
    requires { IsSound structs.now }
    ensures { IsLeast (ResultBreaks (structs_in structs.now) (type_of kind.now) place) result }
{
    first_of(no_struct(structs, kind), whole_struct(kind, place))
}

/// The first fault of the type of a `sizeof` at a place: an undeclared struct, or `void`.
pub fn sizeof_fault(structs: &Structs, kind: &TypeName, place: Place) -> Option<Fault>
    requires { IsSound structs.now }
    ensures { IsLeast (SizeofBreaks (structs_in structs.now) (type_of kind.now) place) result }
{
    first_of(no_struct(structs, kind), void(kind, place))
}
