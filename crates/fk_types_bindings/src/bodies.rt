//! The headers that have the bodies of functions, by their numbers.

ghost use Rattle.std.specs.Prelude.{◌≡◌, List, ℕ, IfOk, IfSome, IsNone, map};
ghost use Rattle.fk_types_names.specs.Outline.{Declares};
ghost use Rattle.fk_types_names.specs.View.{declaration_of};
ghost use Rattle.fk_types_names.specs.Means.{DefinesHere};
ghost use Rattle.fk_types_names.specs.TableView.{shown};
ghost use Rattle.fk_types_bindings.specs.Bodies.{AreBodies, meant_by};

use fk_types_names::{Declaration, Table};
use std::alloc::{AllocError, Global};

// The name of a function, if a declaration is its header with the body.
fn defined_name<'a>(declaration: &Declaration<'_, 'a>) -> Option<&'a [u8]>
    ensures some { IfSome result
        (λ name. DefinesHere name.now (Declares (declaration_of declaration.now))) }
    ensures none { IsNone result
        → (name : List ℕ) → ¬ DefinesHere name (Declares (declaration_of declaration.now)) }
{
    match declaration {
        Declaration::Function(function) if function.body.is_some() => Some(function.name.bytes),
        _ => None,
    }
}

/// The first header with a body of each function. It fails only if there isn't enough memory.
pub(crate) fn bodies<'a>(
    alloc: Global,
    declared: &[Declaration<'_, 'a>],
) -> Result<Table<'a>, AllocError>
    ensures { IfOk result
        (λ bodies. AreBodies (map declaration_of declared.now) (shown bodies)) }
{
    let mut bodies = Table::new(alloc);
    for (number, declaration) in declared.iter().enumerate() {
        bodies.set_first(defined_name(declaration), number)?;
    }
    Ok(bodies)
}

/// The number that the name of a declaration has as its binding. `number` is that of the
/// declaration itself. For a function it is the number of the header with the body, if there is
/// one.
pub(crate) fn meant(bodies: &Table, number: usize, declaration: &Declaration) -> usize
    ensures { result ≡ meant_by (shown bodies.now) number (declaration_of declaration.now) }
{
    match declaration {
        Declaration::Variable(_) => number,
        Declaration::Function(function) => bodies.get(function.name.bytes).unwrap_or(number),
    }
}
