//! An order of structs in which one pass finds the number of words of all.

ghost use Rattle.std.specs.Prelude.{◌<◌, length, All, IfOk, IfSome, OnOk};
ghost use Rattle.fk_types_structs.specs.Order.{AreVisits};

use crate::types::{DataType, Root};
use std::alloc::{AllocError, Global};

// A struct that is being visited, and its next member.
#[derive(Clone, Copy)]
struct Visit {
    index: usize,
    next: usize,
}

// The struct that a member with this type contains, if it contains one.
pub(crate) fn held(kind: &Option<DataType>) -> Option<usize> {
    match kind {
        Some(
            DataType {
                root: Root::Struct(index),
                stars: 0,
                ..
            },
        ) => Some(*index as usize),
        _ => None,
    }
}

// Goes on with the struct that was begun last: to one that it contains and that hasn't been seen
// yet, to its next member, or to its end. Returns the struct if it has ended.
fn step(
    structs: &[Vec<Option<DataType>>],
    seen: &mut [bool],
    visits: &mut Vec<Visit>,
    visit: Visit,
) -> Result<Option<usize>, AllocError>
    requires inside { visit.index < length structs.now }
    requires visits { AreVisits (length structs.now) visits.old.items }
    ensures visits { OnOk result (AreVisits (length structs.now) visits.new.items) }
    ensures ended { IfOk result (λ ended. IfSome ended (λ index. index < length structs.now)) }
{
    let Some(kind) = structs[visit.index].get(visit.next) else {
        return Ok(Some(visit.index));
    };
    visits.push(Visit {
        index: visit.index,
        next: visit.next + 1,
    })?;
    if let Some(index) = held(kind)
        && index < structs.len()
        && index < seen.len()
        && !seen[index]
    {
        seen[index] = true;
        visits.push(Visit { index, next: 0 })?;
    }
    Ok(None)
}

// Adds the structs that are reached from the begun ones, each after those that it contains.
fn go_through(
    structs: &[Vec<Option<DataType>>],
    seen: &mut [bool],
    order: &mut Vec<usize>,
    visits: &mut Vec<Visit>,
) -> Result<(), AllocError>
    requires visits { AreVisits (length structs.now) visits.old.items }
    requires order { All (λ index. index < length structs.now) order.old.items }
    ensures visits { OnOk result (AreVisits (length structs.now) visits.new.items) }
    ensures order { OnOk result (All (λ index. index < length structs.now) order.new.items) }
{
    for _ in 0..u64::MAX {
        let Some(visit) = visits.pop() else {
            break;
        };
        if let Some(index) = step(structs, seen, visits, visit)? {
            order.push(index)?;
        }
    }
    Ok(())
}

/// The structs, each after those that it contains, if none contains itself.
pub(crate) fn order(
    alloc: Global,
    structs: &[Vec<Option<DataType>>],
) -> Result<Vec<usize>, AllocError>
    ensures { IfOk result (λ order. All (λ index. index < length structs.now) order.items) }
{
    let mut seen = vec![in alloc; false; structs.len()]?;
    let mut order = Vec::new(alloc);
    let mut visits = Vec::new(alloc);
    for index in 0..structs.len() {
        if index < seen.len() && !seen[index] {
            seen[index] = true;
            visits.push(Visit { index, next: 0 })?;
            go_through(structs, &mut seen, &mut order, &mut visits)?;
        }
    }
    Ok(order)
}
