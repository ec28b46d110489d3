//! Graphs with their answers, which a program that lists all walks by length and then by number gave.

ghost use Rattle.std.specs.Prelude.{IsTrue};
ghost use Rattle.shade_reach.specs.Digraph.{JoinsNodes};

use shade_reach::{Distances, Graph, Path};
use std::alloc::{AllocError, Global};
use std::test::Fail;

/// Whether each edge joins nodes.
fn joins_nodes(nodes: u32, edges: &[(u32, u32)]) -> bool
    ensures { IsTrue result → JoinsNodes nodes edges.now }
{
    for edge in edges {
        if edge.0 >= nodes || edge.1 >= nodes {
            return false;
        }
    }
    true
}

/// Whether a graph has these distances to a target, and this least path to it from a node.
fn gives(
    alloc: Global,
    edges: Vec<(u32, u32)>,
    from: u32,
    target: u32,
    distances: &[Option<u32>],
    path: &[u32],
) -> Result<bool, AllocError> {
    let Ok(nodes) = u32::try_from(distances.len()) else {
        return Ok(false);
    };
    if from >= nodes || target >= nodes || !joins_nodes(nodes, &edges) {
        return Ok(false);
    }
    let graph = Graph::new(alloc, nodes, edges)?;
    if graph.distance_to(alloc, target)? != Distances::from_vec(distances.to_vec(alloc)?) {
        return Ok(false);
    }
    match graph.least_path(alloc, from, target)? {
        Some(found) => Ok(found == Path::from_vec(path.to_vec(alloc)?)),
        None => Ok(path.is_empty()),
    }
}

const NO: Option<u32> = None;

#[test]
fn distances_and_least_paths(rt: HostRuntime) -> Result<(), Fail> {
    let alloc = rt.alloc();
    let three = vec![in alloc; (0, 1), (1, 2), (0, 2)]?;
    let there = [Some(1), Some(1), Some(0)];
    assert!(rt; gives(alloc, three.clone()?, 0, 2, &there, &[0, 2])?);
    assert!(rt; gives(alloc, three, 2, 0, &[Some(0), NO, NO], &[])?);
    let line = vec![in alloc; (2, 3), (0, 1), (1, 2)]?;
    let there = [Some(3), Some(2), Some(1), Some(0)];
    assert!(rt; gives(alloc, line, 0, 3, &there, &[0, 1, 2, 3])?);
    let diamond = vec![in alloc; (0, 2), (0, 1), (2, 3), (1, 3), (0, 1), (1, 1)]?;
    let there = [Some(2), Some(1), Some(1), Some(0)];
    assert!(rt; gives(alloc, diamond, 0, 3, &there, &[0, 1, 3])?);
    let cycle = vec![in alloc; (0, 1), (1, 2), (2, 0)]?;
    let there = [Some(1), Some(0), Some(2)];
    assert!(rt; gives(alloc, cycle.clone()?, 2, 1, &there, &[2, 0, 1])?);
    assert!(rt; gives(alloc, cycle, 1, 1, &there, &[1])?);
    Ok(())
}

#[test]
fn a_random_graph(rt: HostRuntime) -> Result<(), Fail> {
    let alloc = rt.alloc();
    let mut edges = vec![in alloc; (5, 2), (6, 0), (1, 8), (1, 5), (0, 8), (3, 0), (1, 6)]?;
    let more = [
        (6, 1),
        (3, 1),
        (8, 6),
        (0, 1),
        (3, 0),
        (6, 0),
        (3, 0),
        (8, 2),
    ];
    edges.extend_from_slice(&more)?;
    let to_two = [
        Some(2),
        Some(2),
        Some(0),
        Some(3),
        NO,
        Some(1),
        Some(3),
        NO,
        Some(1),
    ];
    assert!(rt; gives(alloc, edges.clone()?, 3, 2, &to_two, &[3, 0, 8, 2])?);
    let to_five = [
        Some(2),
        Some(1),
        NO,
        Some(2),
        NO,
        Some(0),
        Some(2),
        NO,
        Some(3),
    ];
    assert!(rt; gives(alloc, edges.clone()?, 8, 5, &to_five, &[8, 6, 1, 5])?);
    let graph = Graph::new(alloc, 2, vec![in alloc; (1, 1), (1, 0), (1, 1)]?)?;
    assert_eq!(rt; graph.targets(1), [0, 1].as_slice());
    assert_eq!(rt; graph.targets(0), [].as_slice());
    Ok(())
}
