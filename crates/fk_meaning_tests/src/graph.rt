use fk_types_graph::{is_on_cycle, suspects};
use std::alloc::{AllocError, Global};
use std::process::Abort;

// Edges 0 to 1, 1 to 2, 2 to 1 and 4, 3 to 0, 4 to 4, and 5 to none.
fn graph(alloc: Global) -> Result<Vec<Vec<usize>>, AllocError> {
    let mut graph = Vec::new(alloc);
    for (first, second) in [(1, 1), (2, 2), (1, 4), (0, 0), (4, 4), (9, 9)] {
        graph.push(vec![in alloc; first, second]?)?;
    }
    Ok(graph)
}

// Checks whether a vertex is found to be on a cycle.
fn is_found(
    rt: &impl Abort,
    alloc: Global,
    graph: &[Vec<usize>],
    vertex: usize,
    expected: bool,
) -> Result<(), AllocError> {
    assert!(rt; vertex < graph.len());
    assert!(rt; is_on_cycle(alloc, graph, vertex)? == expected);
    Ok(())
}

#[test]
fn cycles_are_found_and_nothing_else(rt: HostRuntime) -> Result<(), AllocError> {
    let graph = graph(rt.alloc())?;
    let suspects = suspects(rt.alloc(), &graph)?;
    for (vertex, expected) in [false, true, true, false, true, false].iter().enumerate() {
        is_found(&rt, rt.alloc(), &graph, vertex, *expected)?;
        assert!(rt; suspects.get(vertex).copied() == Some(*expected));
    }
    Ok(())
}
