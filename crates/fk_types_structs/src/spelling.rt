//! The types that a base and stars spell.

ghost use Rattle.std.specs.Prelude.{◌≡◌, List, map, IfOk};
ghost use Rattle.fk_syntax.specs.View.{base_of, type_of};
ghost use Rattle.fk_syntax.specs.ProgramView.{declared_of};
ghost use Rattle.fk_types_structs.specs.Types.{StructTree, names_of, root_of, type_spelled};
ghost use Rattle.fk_types_structs.specs.Types.{type_declared, all_types};
ghost use Rattle.fk_types_structs.specs.Table.{types_of};
ghost use Rattle.fk_types_structs.specs.View.{outline_tree, Finds};

use crate::names::Places;
use crate::outline::Outline;
use crate::types::{DataType, Root};
use fk_syntax::{Base, Declared, TypeName};
use std::alloc::{AllocError, Global};

// The root that the base of a type names. There is none for an undeclared struct.
fn root_of(places: &Places, base: &Base) -> Option<Root>
    ensures { (structs : List StructTree) → Finds places.now.entries (names_of structs)
        → result ≡ root_of structs (base_of base.now) }
{
    match base {
        Base::Int => Some(Root::Int),
        Base::Unsigned => Some(Root::Unsigned),
        Base::Void => Some(Root::Void),
        Base::Struct(name) => match places.get(name.bytes) {
            Some(index) => Some(Root::Struct(*index)),
            None => None,
        },
    }
}

/// The type that a base and stars spell, with the length of an array if it is one.
pub(crate) fn spelled(places: &Places, kind: &TypeName, length: Option<u32>) -> Option<DataType>
    ensures { (structs : List StructTree) → Finds places.now.entries (names_of structs)
        → result ≡ type_spelled structs (type_of kind.now) length }
{
    match root_of(places, &kind.base) {
        Some(root) => Some(DataType {
            root,
            stars: kind.stars,
            length,
        }),
        None => None,
    }
}

// The types of the members of a struct.
fn member_types(
    alloc: Global,
    places: &Places,
    members: &[Declared],
) -> Result<Vec<Option<DataType>>, AllocError>
    ensures { IfOk result (λ kinds. (structs : List StructTree)
        → Finds places.now.entries (names_of structs)
        → kinds.items ≡ map (type_declared structs) (map declared_of members.now)) }
{
    let mut kinds = Vec::new(alloc);
    for member in members {
        kinds.push(spelled(places, &member.kind, member.length))?;
    }
    Ok(kinds)
}

/// The types of the members of each struct.
pub(crate) fn all_types(
    alloc: Global,
    places: &Places,
    structs: &[Outline],
) -> Result<Vec<Vec<Option<DataType>>>, AllocError>
    requires { Finds places.now.entries (names_of (map outline_tree structs.now)) }
    ensures { IfOk result
        (λ kinds. types_of kinds.items ≡ all_types (map outline_tree structs.now)) }
{
    let mut kinds = Vec::new(alloc);
    for outline in structs {
        kinds.push(member_types(alloc, places, outline.members)?)?;
    }
    Ok(kinds)
}
