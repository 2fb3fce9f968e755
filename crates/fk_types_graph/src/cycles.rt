//! The vertices that may lie on cycles.

ghost use Rattle.std.specs.Prelude.{◌≡◌, ℕ, true, unwrap_or, map, slice_get, length, IfOk};
ghost use Rattle.fk_types_graph.specs.Graph.{IsOnCycle};
ghost use Rattle.fk_types_graph.specs.Marks.{IsMarked};
ghost use Rattle.fk_types_graph.specs.Ranks.{Covers, Keeps, CoversAll, CoversFirst};

use crate::ranks::ranks;
use std::alloc::{AllocError, Global};

// Marks the ranks from `low` to `high`.
fn cover(covered: &mut [bool], low: usize, high: usize)
    ensures kept { Keeps covered.old covered.new }
    ensures all { Covers covered.new low high }
{
    for rank in low..covered.len() {
        if rank > high {
            break;
        }
        covered[rank] = true;
    }
}

// Marks the ranks from `low` to those of some vertices.
fn cover_all(covered: &mut [bool], ranks: &[usize], low: usize, vertices: &[usize])
    ensures kept { Keeps covered.old covered.new }
    ensures all { CoversAll covered.new ranks.now low vertices.now }
{
    for vertex in vertices {
        if *vertex < ranks.len() {
            cover(covered, low, ranks[*vertex]);
        }
    }
}

// Marks the ranks from the beginning of each edge to its end, unless the edge falls. A walk that
// comes back to its beginning rises past the rank of each of its vertices, or keeps it.
fn cover_edges(covered: &mut [bool], graph: &[Vec<usize>], ranks: &[usize])
    requires { length ranks.now ≡ length graph.now }
    ensures length { length covered.new ≡ length covered.old }
    ensures all { CoversFirst covered.new ranks.now graph.now (length graph.now) }
{
    for (vertex, row) in graph.iter().enumerate() {
        cover_all(covered, ranks, ranks[vertex], row);
    }
}

// The ranks that are passed by edges that don't fall.
fn covered(alloc: Global, graph: &[Vec<usize>], ranks: &[usize]) -> Result<Vec<bool>, AllocError>
    requires { length ranks.now ≡ length graph.now }
    ensures { IfOk result
        (λ covered. CoversFirst covered.items ranks.now graph.now (length graph.now)) }
{
    let mut covered = vec![in alloc; false; graph.len()]?;
    cover_edges(&mut covered, graph, ranks);
    Ok(covered)
}

// Whether a rank is covered. A rank that isn't in the list counts as covered.
fn is_covered(covered: &[bool], rank: usize) -> bool
    ensures { result ≡ unwrap_or (slice_get covered.now rank) true }
{
    match covered.get(rank) {
        Some(is_covered) => *is_covered,
        None => true,
    }
}

// Whether the rank of each vertex is covered.
fn told(alloc: Global, covered: &[bool], ranks: &[usize]) -> Result<Vec<bool>, AllocError>
    ensures { IfOk result (λ suspects. suspects.items
        ≡ map (λ rank. unwrap_or (slice_get covered.now rank) true) ranks.now) }
{
    let mut suspects = Vec::new(alloc);
    for rank in ranks {
        suspects.push(is_covered(covered, *rank))?;
    }
    Ok(suspects)
}

/// Marks every vertex that lies on a cycle. Other vertices may be marked too, and `is_on_cycle` has
/// to decide. That there are few of them makes this fast. It fails only if there isn't enough
/// memory.
pub fn suspects(alloc: Global, graph: &[Vec<usize>]) -> Result<Vec<bool>, AllocError>
    ensures length { IfOk result (λ suspects. length suspects.items ≡ length graph.now) }
    ensures marked { IfOk result
        (λ suspects. (v : ℕ) → IsOnCycle graph.now v → IsMarked suspects.items v) }
{
    let ranks = ranks(alloc, graph)?;
    let covered = covered(alloc, graph, &ranks)?;
    told(alloc, &covered, &ranks)
}
