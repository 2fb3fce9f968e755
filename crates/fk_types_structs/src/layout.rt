//! Where the members of structs lie.

ghost use Rattle.std.specs.Prelude.{◌≡◌, map, IfOk};
ghost use Rattle.fk_types_structs.specs.Types.{all_types};
ghost use Rattle.fk_types_structs.specs.Table.{sizes_of, types_of};
ghost use Rattle.fk_types_structs.specs.View.{outline_tree};
ghost use Rattle.fk_types_structs.specs.Layouts.{AreLayouts};

use crate::names::{Places, member_places};
use crate::outline::Outline;
use crate::types::DataType;
use crate::words::offsets;
use std::alloc::{AllocError, Global};

/// The layout of a struct: the first position of each name among its members, and the number of
/// words before each member.
#[derive(Drop)]
pub(crate) struct Layout<'a> {
    pub(crate) places: Places<'a>,
    pub(crate) offsets: Vec<Option<u32>>,
}

/// The layouts of structs, given the number of words of each.
pub(crate) fn layouts<'a>(
    alloc: Global,
    structs: &[Outline<'_, 'a>],
    kinds: &[Vec<Option<DataType>>],
    sizes: &[Option<u32>],
) -> Result<Vec<Layout<'a>>, AllocError>
    requires { types_of kinds.now ≡ all_types (map outline_tree structs.now) }
    ensures { IfOk result
        (λ layouts. AreLayouts (sizes_of sizes.now) (map outline_tree structs.now) layouts.items) }
{
    let mut layouts = Vec::new(alloc);
    for (index, outline) in structs.iter().enumerate() {
        layouts.push(Layout {
            places: member_places(alloc, outline.members)?,
            offsets: offsets(alloc, sizes, &kinds[index])?,
        })?;
    }
    Ok(layouts)
}
