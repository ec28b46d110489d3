//! The least paths to one target.

ghost use Rattle.std.specs.Prelude.{◌≡◌, ℕ, ◌<◌, ◌↔◌, All, Contains, length, IsTrue, IfOk, IfSome, IfNone};
ghost use Rattle.std.specs.List.Sorted.{IsStrictlyIncreasing};
ghost use Rattle.shade_reach.specs.Paths.{NoPath};
ghost use Rattle.shade_reach.specs.Digraph.{HasEdge, IsDistances, IsLeastEdgePath};
ghost use Rattle.shade_reach.specs.Search.{IsMarked, IsFirstAt};

use crate::Graph;
use crate::lists::Path;
use std::alloc::{AllocError, Global};
use std::marker::Model;

/// What one search through a graph has found: the least paths from its nodes to one target. Contracts see the graph, which
/// this borrows, and the target.
#[derive(Drop)]
pub struct PathsTo<'graph> {
    graph: &'graph Graph,
    target: u32,
    /// How far each node is from the target, in edges.
    distances: Vec<Option<u32>>,
}

impl<'graph> Model for PathsTo<'graph> {
    ghost use Rattle.shade_reach.specs.Digraph.{Towards, IsDistances};

    ghost Value = { Towards };

    ghost view = { λ p. record { graph = p.graph.now; target = p.target } };

    ghost invariant = { λ p. IsDistances p.graph.now.nodes p.graph.now.edges p.target p.distances.items };
}

impl<'graph> PathsTo<'graph> {
    /// The paths to a target from which the nodes of a graph are this far. Takes no memory.
    pub(crate) fn new(
        graph: &'graph Graph,
        target: u32,
        distances: Vec<Option<u32>>,
    ) -> PathsTo<'graph>
        requires { IsDistances graph.now.nodes graph.now.edges target distances.items }
        ensures graph { result.graph ≡ graph.now }
        ensures target { result.target ≡ target }
    {
        PathsTo {
            graph,
            target,
            distances,
        }
    }

    /// The graph. Takes no memory.
    fn graph(&self) -> &Graph
        ensures { result.now ≡ self.now.graph }
    {
        self.graph
    }

    /// How far each node is from the target. Takes no memory.
    fn distances(&self) -> &[Option<u32>]
        ensures { IsDistances self.now.graph.nodes self.now.graph.edges self.now.target result.now }
    {
        &self.distances
    }

    /// The shortest path from a node to the target, and among the shortest the first by node number at the first
    /// difference; `None` exactly where no path leads there. From the target it is that node alone.
    ///
    /// Takes memory for the path, and time in the order of the edges from its nodes.
    pub fn least_from(&self, alloc: Global, from: u32) -> Result<Option<Path>, AllocError>
        requires { from < self.now.graph.nodes }
        ensures path { IfOk result (λ answer. IfSome answer (IsLeastEdgePath self.now.graph.edges from self.now.target)) }
        ensures none { IfOk result (λ answer. IfNone answer (NoPath (HasEdge self.now.graph.edges) from self.now.target)) }
    {
        let distances = self.distances();
        let Some(distance) = distances[from as usize] else {
            return Ok(None);
        };
        let mut path = Vec::with_capacity(alloc, distance as usize + 1)?;
        path.push(from)?;
        let mut at = from;
        let mut left = distance;
        'way: while left > 0 {
            left -= 1;
            at = first_at(self.graph().targets(at), distances, left);
            path.push(at)?;
        }
        Ok(Some(Path::from_vec(path)))
    }
}

/// The first of some nodes that is at this distance.
fn first_at(nodes: &[u32], distances: &[Option<u32>], distance: u32) -> u32
    requires inside { All (λ node. node < length distances.now) nodes.now }
    requires some { (node : ℕ) × Contains nodes.now node × IsMarked distances.now node distance }
    requires ascending { IsStrictlyIncreasing nodes.now }
    ensures { IsFirstAt nodes.now distances.now distance result }
{
    for node in nodes {
        if is_at(distances, *node, distance) {
            return *node;
        }
    }
    unreachable!()
}

fn is_at(distances: &[Option<u32>], node: u32, distance: u32) -> bool
    requires { node < length distances.now }
    ensures { IsTrue result ↔ IsMarked distances.now node distance }
{
    distances[node as usize] == Some(distance)
}
