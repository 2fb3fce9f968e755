//! The variables of file scope in their order.

ghost use Rattle.std.specs.Prelude.{◌≡◌, ◌++◌, map, IfOk, OnOk};
ghost use Rattle.fk_syntax.specs.ProgramView.{declared_of, item_of};
ghost use Rattle.fk_layout_globals.specs.Variables.{kept, variables_of, declared_behind};

use fk_syntax::{Declared, Item};
use std::alloc::{AllocError, Global};

// Appends the variables of a declaration that have `sh`, or those that don't.
fn keep<'p, 'a>(
    list: &mut Vec<&'p Declared<'a>>,
    variables: &'p [Declared<'a>],
    shared: bool,
) -> Result<(), AllocError>
    ensures { OnOk result (declared_behind list.new.items
        ≡ declared_behind list.old.items ++ kept shared (map declared_of variables.now)) }
{
    for variable in variables {
        if variable.shared == shared {
            list.push(variable)?;
        }
    }
    Ok(())
}

/// The variables of file scope that have `sh`, or those that don't, in the order of the text.
pub(crate) fn file_variables<'p, 'a>(
    alloc: Global,
    items: &'p [Item<'a>],
    shared: bool,
) -> Result<Vec<&'p Declared<'a>>, AllocError>
    ensures { IfOk result (λ list. declared_behind list.items
        ≡ variables_of shared (map item_of items.now)) }
{
    let mut list = Vec::new(alloc);
    for item in items {
        if let Item::Variables(variables) = item {
            keep(&mut list, variables, shared)?;
        }
    }
    Ok(list)
}
