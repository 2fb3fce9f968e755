//! A rank for each vertex. No edge rises, and an edge keeps its rank exactly if it lies on a cycle.
//! This makes the search for cycles fast; nothing else depends on it.

ghost use Rattle.std.specs.Prelude.{◌≡◌, length, IfOk};

use crate::marks::{mark, mark_next};
use crate::order::{order, turned};
use std::alloc::{AllocError, Global};

// Gives a rank to the vertices that wait, and to the unmarked ones that are reached from them.
fn rank_waiting(
    graph: &[Vec<usize>],
    marks: &mut [bool],
    waiting: &mut Vec<usize>,
    ranks: &mut [usize],
    rank: usize,
) -> Result<(), AllocError> {
    while let Some(vertex) = waiting.pop() {
        if vertex < ranks.len() {
            ranks[vertex] = rank;
        }
        mark_next(graph, marks, waiting, vertex)?;
    }
    Ok(())
}

// Gives a rank to each vertex of an order, from its end on, and to the unmarked ones reached from
// it.
fn rank_all(
    alloc: Global,
    graph: &[Vec<usize>],
    marks: &mut [bool],
    order: &[usize],
    ranks: &mut [usize],
) -> Result<(), AllocError> {
    let mut waiting = Vec::new(alloc);
    for rank in 0..order.len() {
        mark(marks, &mut waiting, order[order.len() - 1 - rank])?;
        rank_waiting(graph, marks, &mut waiting, ranks, rank)?;
    }
    Ok(())
}

// The order of the reversed graph.
fn turned_order(alloc: Global, graph: &[Vec<usize>]) -> Result<Vec<usize>, AllocError> {
    let turned = turned(alloc, graph)?;
    order(alloc, &turned)
}

/// The ranks of the vertices. The search for the vertices of each rank begins at the one that the
/// reversed graph ends last.
pub(crate) fn ranks(alloc: Global, graph: &[Vec<usize>]) -> Result<Vec<usize>, AllocError>
    ensures { IfOk result (λ ranks. length ranks.items ≡ length graph.now) }
{
    let order = turned_order(alloc, graph)?;
    let mut marks = vec![in alloc; false; graph.len()]?;
    let mut ranks = vec![in alloc; 0; graph.len()]?;
    rank_all(alloc, graph, &mut marks, &order, &mut ranks)?;
    Ok(ranks)
}
