//! Lists of parsed elements.
//!
//! Their elements have any type, so that no proof goes through the cases of expressions for them.

ghost use Rattle.std.specs.Prelude.{◌≡◌, ◌∷◌, ◌++◌, [], IfOk, OnOk};

use std::alloc::{AllocError, Global};

/// A list of one element, with no room for more. It fails only if there isn't enough memory.
pub fn one<T: Drop>(alloc: Global, item: T) -> Result<Vec<T>, AllocError>
    ensures { IfOk result (λ list. list.items ≡ item ∷ []) }
{
    let mut list = Vec::with_capacity(alloc, 1)?;
    list.push(item)?;
    Ok(list)
}

/// Appends an element. It fails only if there isn't enough memory.
pub fn put<T: Drop>(items: &mut Vec<T>, item: T) -> Result<(), AllocError>
    ensures items { OnOk result (items.new.items ≡ items.old.items ++ item ∷ []) }
{
    items.push(item)?;
    Ok(())
}
