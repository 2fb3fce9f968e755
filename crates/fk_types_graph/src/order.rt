//! An order in which each vertex comes after those to which its edges lead, except on cycles.

ghost use Rattle.std.specs.Prelude.{◌≡◌, length, IfOk};

use std::alloc::{AllocError, Global};

// A vertex that is being visited, and the next of its edges.
#[derive(Clone, Copy)]
struct Visit {
    vertex: usize,
    next: usize,
}

/// The graph with each edge reversed.
pub(crate) fn turned(alloc: Global, graph: &[Vec<usize>]) -> Result<Vec<Vec<usize>>, AllocError> {
    let mut turned = without_edges(alloc, graph.len())?;
    add_turned(&mut turned, graph)?;
    Ok(turned)
}

// A graph with this number of vertices and no edges.
fn without_edges(alloc: Global, vertices: usize) -> Result<Vec<Vec<usize>>, AllocError> {
    let mut graph = Vec::new(alloc);
    for _ in 0..vertices {
        graph.push(Vec::new(alloc))?;
    }
    Ok(graph)
}

// Adds the edges of another graph, reversed.
fn add_turned(turned: &mut [Vec<usize>], graph: &[Vec<usize>]) -> Result<(), AllocError> {
    for (from, row) in graph.iter().enumerate() {
        add_all(turned, row, from)?;
    }
    Ok(())
}

// Adds an edge from each of these vertices to `to`.
fn add_all(graph: &mut [Vec<usize>], vertices: &[usize], to: usize) -> Result<(), AllocError> {
    for from in vertices {
        add(graph, *from, to)?;
    }
    Ok(())
}

// Adds an edge.
fn add(graph: &mut [Vec<usize>], from: usize, to: usize) -> Result<(), AllocError> {
    if let Some(row) = graph.get_mut(from) {
        row.push(to)?;
    }
    Ok(())
}

// Goes on with the vertex that was begun last: along its next edge, to a vertex that hasn't been
// seen yet, or to its end. Returns the vertex if it has ended.
fn step(
    graph: &[Vec<usize>],
    seen: &mut [bool],
    visits: &mut Vec<Visit>,
    visit: Visit,
) -> Result<Option<usize>, AllocError> {
    let Some(row) = graph.get(visit.vertex) else {
        return Ok(None);
    };
    let Some(vertex) = row.get(visit.next) else {
        return Ok(Some(visit.vertex));
    };
    visits.push(Visit {
        vertex: visit.vertex,
        next: visit.next + 1,
    })?;
    begin(seen, visits, *vertex)?;
    Ok(None)
}

// Begins a vertex, unless it has been seen.
fn begin(seen: &mut [bool], visits: &mut Vec<Visit>, vertex: usize) -> Result<(), AllocError> {
    if vertex < seen.len() && !seen[vertex] {
        seen[vertex] = true;
        visits.push(Visit { vertex, next: 0 })?;
    }
    Ok(())
}

// Adds the vertices that are reached from the begun ones, each after those to which its edges lead.
fn go_through(
    graph: &[Vec<usize>],
    seen: &mut [bool],
    visits: &mut Vec<Visit>,
    order: &mut Vec<usize>,
) -> Result<(), AllocError> {
    for _ in 0..u64::MAX {
        let Some(visit) = visits.pop() else {
            break;
        };
        if let Some(vertex) = step(graph, seen, visits, visit)? {
            order.push(vertex)?;
        }
    }
    Ok(())
}

// Adds all vertices that haven't been seen yet, each after those to which its edges lead.
fn go_through_all(
    alloc: Global,
    graph: &[Vec<usize>],
    seen: &mut [bool],
    order: &mut Vec<usize>,
) -> Result<(), AllocError> {
    let mut visits = Vec::new(alloc);
    for vertex in 0..graph.len() {
        begin(seen, &mut visits, vertex)?;
        go_through(graph, seen, &mut visits, order)?;
    }
    Ok(())
}

/// The vertices, each after those to which its edges lead, except on cycles.
pub(crate) fn order(alloc: Global, graph: &[Vec<usize>]) -> Result<Vec<usize>, AllocError> {
    let mut seen = vec![in alloc; false; graph.len()]?;
    let mut order = Vec::new(alloc);
    go_through_all(alloc, graph, &mut seen, &mut order)?;
    Ok(order)
}
