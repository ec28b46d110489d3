//! Distances and least paths in a directed graph.
#![tactic(auto)]

pub mod lists;
mod paths;
mod rows;
mod search;

ghost use Rattle.std.specs.Prelude.{◌≡◌, ◌<◌, All, IfOk, IfSome, IfNone};
ghost use Rattle.shade_reach.specs.Paths.{NoPath};
ghost use Rattle.shade_reach.specs.Digraph.{HasEdge, JoinsNodes, SameEdges, IsTargets, IsDistances, IsLeastEdgePath};
ghost use Rattle.shade_reach.specs.Search.{AreSources};

pub use lists::{Distances, Path};
pub use paths::PathsTo;
use rows::{Rows, turned};
use search::Search;
use std::alloc::{AllocError, Global};
use std::marker::Model;

/// A directed graph. Its nodes are the numbers below a count, and contracts see that count and its edges.
#[derive(Debug, Drop)]
pub struct Graph {
    nodes: u32,
    forward: Rows,
    /// The edges turned round.
    backward: Rows,
}

impl Model for Graph {
    ghost use Rattle.shade_reach.specs.Digraph.{Digraph};
    ghost use Rattle.shade_reach.specs.Search.{AreBothWays};

    ghost Value = { Digraph };

    ghost view = { λ g. record { nodes = g.nodes; edges = g.forward.edges } };

    ghost invariant = { λ g. AreBothWays g.nodes g.forward g.backward };
}

impl Graph {
    /// The graph with these edges, which may come in any order and more than once.
    ///
    /// Takes time in the order of a sort of the edges, and memory for each node and edge.
    pub fn new(alloc: Global, nodes: u32, edges: Vec<(u32, u32)>) -> Result<Graph, AllocError>
        requires { JoinsNodes nodes edges.items }
        ensures nodes { IfOk result (λ graph. graph.nodes ≡ nodes) }
        ensures edges { IfOk result (λ graph. SameEdges edges.items graph.edges) }
    {
        let turned = turned(alloc, &edges)?;
        let forward = Rows::new(alloc, nodes, edges)?;
        let backward = Rows::new(alloc, nodes, turned)?;
        Ok(Graph {
            nodes,
            forward,
            backward,
        })
    }

    /// The ends of the edges from a node, each once and ascending. Takes no memory.
    pub fn targets(&self, from: u32) -> &[u32]
        requires { from < self.now.nodes }
        ensures targets { IsTargets self.now.edges from result.now }
        ensures nodes { All (λ target. target < self.now.nodes) result.now }
    {
        self.forward.row(from)
    }

    /// The nodes from which edges lead to a node. Takes no memory.
    fn sources(&self, node: u32) -> &[u32]
        requires { node < self.now.nodes }
        ensures sources { AreSources self.now.edges node result.now }
        ensures nodes { All (λ source. source < self.now.nodes) result.now }
    {
        self.backward.row(node)
    }

    /// How many nodes there are.
    fn count(&self) -> u32
        ensures { result ≡ self.now.nodes }
    {
        self.nodes
    }

    /// How far each node is from the target, in edges, and `None` where no path leads there.
    ///
    /// Takes time and memory in the order of the nodes and edges.
    pub fn distance_to(&self, alloc: Global, target: u32) -> Result<Distances, AllocError>
        requires { target < self.now.nodes }
        ensures { IfOk result (IsDistances self.now.nodes self.now.edges target) }
    {
        let mut search = Search::new(alloc, self.count(), target)?;
        let mut next = 0;
        'nodes: while next < search.found.len() {
            let node = search.found[next];
            let distance = search.distance_of(node);
            for source in self.sources(node) {
                search.mark(*source, distance + 1)?;
            }
            next += 1;
        }
        let Search {
            distances,
            found: _,
        } = search;
        Ok(Distances::from_vec(distances))
    }

    /// The least paths to a target, from whatever node they are asked for: one search serves them all.
    ///
    /// Takes time and memory in the order of the nodes and edges.
    pub fn paths_to(&self, alloc: Global, target: u32) -> Result<PathsTo<'_>, AllocError>
        requires { target < self.now.nodes }
        ensures graph { IfOk result (λ paths. paths.graph ≡ self.now) }
        ensures target { IfOk result (λ paths. paths.target ≡ target) }
    {
        let distances = self.distance_to(alloc, target)?.into_vec();
        Ok(PathsTo::new(self, target, distances))
    }

    /// The shortest path from a node to a target, and among the shortest the first by node number at the first
    /// difference; `None` exactly where no path leads there. From a node to itself it is that node alone.
    ///
    /// Takes time and memory in the order of the nodes and edges.
    pub fn least_path(
        &self,
        alloc: Global,
        from: u32,
        target: u32,
    ) -> Result<Option<Path>, AllocError>
        requires from { from < self.now.nodes }
        requires target { target < self.now.nodes }
        ensures path { IfOk result (λ answer. IfSome answer (IsLeastEdgePath self.now.edges from target)) }
        ensures none { IfOk result (λ answer. IfNone answer (NoPath (HasEdge self.now.edges) from target)) }
    {
        self.paths_to(alloc, target)?.least_from(alloc, from)
    }
}
