//! The vertices that are reached from a vertex.

ghost use Rattle.std.specs.Prelude.{◌≡◌, ◌↔◌, ℕ, ◌+◌, ◌<◌, [], ◌∷◌, Some, false, not, Vec, length};
ghost use Rattle.std.specs.Prelude.{slice_get, count_by, IsTrue, IfOk, OnOk};
ghost use Rattle.std.specs.declared.alloc.Global.{Global};
ghost use Rattle.std.specs.Bool.{OnTrue, OnFalse};
ghost use Rattle.fk_types_graph.specs.Graph.{IsOnCycle};
ghost use Rattle.fk_types_graph.specs.Marks.{IsMarked, Marks};

use std::alloc::{AllocError, Global};

// Whether a vertex is in the list and isn't marked.
fn is_unmarked(marks: &[bool], vertex: usize) -> bool
    ensures yes { OnTrue result (slice_get marks.now vertex ≡ Some false) }
    ensures no { OnFalse result (vertex < length marks.now → IsMarked marks.now vertex) }
{
    match marks.get(vertex) {
        Some(marked) => !*marked,
        None => false,
    }
}

/// Marks a vertex. If it wasn't marked before, it is added to those that wait.
pub(crate) fn mark(
    marks: &mut [bool],
    waiting: &mut Vec<usize>,
    vertex: usize,
) -> Result<(), AllocError>
    ensures { OnOk result
        (Marks (vertex ∷ []) marks.old marks.new waiting.old.items waiting.new.items) }
{
    if is_unmarked(marks, vertex) {
        marks[vertex] = true;
        waiting.push(vertex)?;
    }
    Ok(())
}

/// Marks vertices. Those that weren't marked before are added to those that wait.
pub(crate) fn mark_all(
    marks: &mut [bool],
    waiting: &mut Vec<usize>,
    vertices: &[usize],
) -> Result<(), AllocError>
    ensures { OnOk result
        (Marks vertices.now marks.old marks.new waiting.old.items waiting.new.items) }
{
    for vertex in vertices {
        mark(marks, waiting, *vertex)?;
    }
    Ok(())
}

/// Marks the ends of a vertex's edges. Those that weren't marked before are added to those that
/// wait.
pub(crate) fn mark_next(
    graph: &[Vec<usize>],
    marks: &mut [bool],
    waiting: &mut Vec<usize>,
    vertex: usize,
) -> Result<(), AllocError>
    ensures row { OnOk result
        ((row : Vec ℕ Global) → slice_get graph.now vertex ≡ Some row
        → Marks row.items marks.old marks.new waiting.old.items waiting.new.items) }
    ensures fewer { OnOk result (length waiting.new.items + count_by not marks.new
        ≡ length waiting.old.items + count_by not marks.old) }
{
    match graph.get(vertex) {
        Some(row) => mark_all(marks, waiting, row),
        None => Ok(()),
    }
}

// Marks all vertices to which walks lead from a vertex.
fn search(
    alloc: Global,
    graph: &[Vec<usize>],
    marks: &mut [bool],
    vertex: usize,
) -> Result<(), AllocError>
    requires inside { vertex < length graph.now }
    requires same_length { length marks.old ≡ length graph.now }
    requires unmarked { (v : ℕ) → ¬ IsMarked marks.old v }
    ensures { OnOk result (IsMarked marks.new vertex ↔ IsOnCycle graph.now vertex) }
{
    let mut waiting = Vec::new(alloc);
    mark_next(graph, marks, &mut waiting, vertex)?;
    while let Some(next) = waiting.pop() {
        mark_next(graph, marks, &mut waiting, next)?;
    }
    Ok(())
}

/// Whether a vertex lies on a cycle. It passes each edge that is reached from the vertex once. It
/// fails only if there isn't enough memory.
pub fn is_on_cycle(alloc: Global, graph: &[Vec<usize>], vertex: usize) -> Result<bool, AllocError>
    requires { vertex < length graph.now }
    ensures { IfOk result (λ yes. IsTrue yes ↔ IsOnCycle graph.now vertex) }
{
    let mut marks = vec![in alloc; false; graph.len()]?;
    search(alloc, graph, &mut marks, vertex)?;
    Ok(marks[vertex])
}
