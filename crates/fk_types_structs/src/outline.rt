//! The structs that a text declares.

ghost use Rattle.std.specs.Prelude.{◌≡◌, map, IfOk};
ghost use Rattle.fk_syntax.specs.ProgramView.{item_of};
ghost use Rattle.fk_types_structs.specs.Types.{structs_of};
ghost use Rattle.fk_types_structs.specs.View.{outline_tree};

use fk_syntax::{Declared, Item, Name};
use std::alloc::{AllocError, Global};

/// The declaration of a struct.
#[derive(Clone, Copy)]
pub struct Outline<'p, 'a> {
    pub name: Name<'a>,
    pub members: &'p [Declared<'a>],
}

/// The structs of a text, in the order of their declarations.
pub(crate) fn outlines<'p, 'a>(
    alloc: Global,
    items: &'p [Item<'a>],
) -> Result<Vec<Outline<'p, 'a>>, AllocError>
    ensures { IfOk result
        (λ structs. map outline_tree structs.items ≡ structs_of (map item_of items.now)) }
{
    let mut structs = Vec::new(alloc);
    for item in items {
        if let Item::Struct(name, members) = item {
            structs.push(Outline {
                name: *name,
                members,
            })?;
        }
    }
    Ok(structs)
}
