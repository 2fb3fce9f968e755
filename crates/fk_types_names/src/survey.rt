//! Tables of the marks of an outline.

ghost use Rattle.std.specs.Prelude.{◌≡◌, ◌+◌, ℕ, ◌<◌, ◌++◌, List, IfOk, OnOk, map, length};
ghost use Rattle.std.specs.Prelude.{slice_index, IfSome, IsNone};
ghost use Rattle.fk_types_names.specs.View.{mark_of, declaration_of};
ghost use Rattle.fk_types_names.specs.Outline.{declared_by, declared_in};
ghost use Rattle.fk_types_names.specs.Means.{HasBodyAt, DefinesHere, binding};
ghost use Rattle.fk_types_names.specs.Visible.{DeclaresHere};
ghost use Rattle.fk_types_names.specs.Locals.{IsFirstOf};
ghost use Rattle.fk_types_names.specs.Reading.{AreDepths, IsOfFile};
ghost use Rattle.fk_types_names.specs.TableView.{shown};

use crate::outline::{Declaration, Mark};
use crate::table::Table;
use std::alloc::{AllocError, Global};

/// The number of scopes around each mark, and after the last one.
pub(crate) fn depths(alloc: Global, marks: &[Mark]) -> Result<Vec<usize>, AllocError>
    ensures { IfOk result (λ depths. AreDepths (map mark_of marks.now) depths.items) }
{
    let mut depths = Vec::with_capacity(alloc, marks.len() + 1)?;
    let mut opened = 0usize;
    let mut closed = 0usize;
    depths.push(0)?;
    for mark in marks {
        opened += usize::from(mark.is_opening());
        closed += usize::from(mark.is_closing());
        depths.push(opened.saturating_sub(closed))?;
    }
    Ok(depths)
}

// Adds the declaration at a mark, if it is one.
fn add_declared<'p, 'a>(
    mark: &Mark<'p, 'a>,
    declarations: &mut Vec<Declaration<'p, 'a>>,
) -> Result<(), AllocError>
    ensures { OnOk result (map declaration_of declarations.new.items
        ≡ map declaration_of declarations.old.items ++ declared_by (mark_of mark.now)) }
{
    if let Mark::Declares(declaration) = mark {
        declarations.push(*declaration)?;
        return Ok(());
    }
    Ok(())
}

/// The declarations of an outline.
pub(crate) fn declarations<'p, 'a>(
    alloc: Global,
    marks: &[Mark<'p, 'a>],
) -> Result<Vec<Declaration<'p, 'a>>, AllocError>
    ensures { IfOk result
        (λ all. map declaration_of all.items ≡ declared_in (map mark_of marks.now)) }
{
    let mut declarations = Vec::new(alloc);
    for mark in marks {
        add_declared(mark, &mut declarations)?;
    }
    Ok(declarations)
}

// The number of declarations after a mark.
fn number_after(mark: &Mark, number: u32) -> Result<u32, AllocError>
    ensures { IfOk result (λ next. next ≡ number + length (declared_by (mark_of mark.now))) }
{
    match mark {
        Mark::Declares(_) => number.checked_add(1).ok_or(AllocError),
        Mark::Opens | Mark::Closes | Mark::Uses(_) => Ok(number),
    }
}

/// The number of declarations before each mark. It fails if there isn't enough memory, which
/// includes more declarations than can be counted.
pub(crate) fn numbers(alloc: Global, marks: &[Mark]) -> Result<Vec<u32>, AllocError>
    ensures size { IfOk result (λ numbers. length numbers.items ≡ length marks.now) }
    ensures each { IfOk result (λ numbers. (k : ℕ) → k < length marks.now
        → slice_index numbers.items k ≡ binding (map mark_of marks.now) k) }
{
    let mut numbers = Vec::with_capacity(alloc, marks.len())?;
    let mut number = 0u32;
    for mark in marks {
        numbers.push(number)?;
        number = number_after(mark, number)?;
    }
    Ok(numbers)
}

// The name that a mark declares at file scope.
fn file_name<'a>(mark: &Mark<'_, 'a>, depth: usize) -> Option<&'a [u8]>
    ensures some { IfSome result
        (λ name. DeclaresHere name.now (mark_of mark.now) × (depth ≡ 0)) }
    ensures none { IsNone result → depth ≡ 0
        → (name : List ℕ) → ¬ DeclaresHere name (mark_of mark.now) }
{
    match mark {
        Mark::Declares(declaration) if depth == 0 => Some(declaration.name()),
        _ => None,
    }
}

/// The first declaration of each name at file scope. The table begins with room for `room` names.
pub(crate) fn file_scope<'a>(
    alloc: Global,
    marks: &[Mark<'_, 'a>],
    depths: &[usize],
    room: usize,
) -> Result<Table<'a>, AllocError>
    requires { AreDepths (map mark_of marks.now) depths.now }
    ensures { IfOk result (λ file. (name : List ℕ)
        → IsOfFile (map mark_of marks.now) name (shown file name)) }
{
    let mut firsts = Table::with_room(alloc, room)?;
    for (at, mark) in marks.iter().enumerate() {
        firsts.set_first(file_name(mark, depths[at]), at)?;
    }
    Ok(firsts)
}

// The name of a function, if the mark is its header with the body.
fn defined_name<'a>(mark: &Mark<'_, 'a>) -> Option<&'a [u8]>
    ensures some { IfSome result (λ name. DefinesHere name.now (mark_of mark.now)) }
    ensures none { IsNone result → (name : List ℕ) → ¬ DefinesHere name (mark_of mark.now) }
{
    match mark {
        Mark::Declares(Declaration::Function(function)) if function.body.is_some() => {
            Some(function.name.bytes)
        }
        _ => None,
    }
}

/// The first header with a body of each function.
pub(crate) fn definitions<'a>(
    alloc: Global,
    marks: &[Mark<'_, 'a>],
) -> Result<Table<'a>, AllocError>
    ensures { IfOk result (λ found. (name : List ℕ)
        → IsFirstOf (HasBodyAt (map mark_of marks.now) name) (shown found name)) }
{
    let mut firsts = Table::new(alloc);
    for (at, mark) in marks.iter().enumerate() {
        firsts.set_first(defined_name(mark), at)?;
    }
    Ok(firsts)
}
