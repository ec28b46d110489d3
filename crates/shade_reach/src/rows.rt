//! Edges in compressed rows: the targets of all nodes in one vector, row after row.

ghost use Rattle.std.specs.Prelude.{◌≡◌, ℕ, ◌+◌, ◌<◌, ◌≤◌, ◌^◌, length, vec_len, map, IfOk, All};
ghost use Rattle.shade_reach.specs.Digraph.{JoinsNodes, SameEdges, IsTargets};
ghost use Rattle.shade_reach.specs.Rows.{IsAscending, IsRowStart, AreRowStarts};

use std::alloc::{AllocError, Global};
use std::marker::Model;

/// The edges from each node: its targets stand together, each once and ascending.
#[derive(Debug, Drop)]
pub struct Rows {
    /// Where the row of each node starts, and last where the last row ends.
    starts: Vec<usize>,
    targets: Vec<u32>,
}

impl Model for Rows {
    ghost use Rattle.std.specs.Prelude.{length, ◌-◌};
    ghost use Rattle.shade_reach.specs.Digraph.{Digraph};
    ghost use Rattle.shade_reach.specs.Rows.{edges_of, IsRows};

    ghost Value = { Digraph };

    ghost view = { λ r. record { nodes = length r.starts.items - 1; edges = edges_of r.starts.items r.targets.items } };

    ghost invariant = { λ r. IsRows r.starts.items r.targets.items };
}

impl Rows {
    /// The rows of these edges.
    pub fn new(alloc: Global, nodes: u32, edges: Vec<(u32, u32)>) -> Result<Rows, AllocError>
        requires { JoinsNodes nodes edges.items }
        ensures nodes { IfOk result (λ rows. rows.nodes ≡ nodes) }
        ensures edges { IfOk result (λ rows. SameEdges edges.items rows.edges) }
    {
        let sorted = ascending(edges);
        let starts = row_starts(alloc, nodes, &sorted)?;
        let targets = targets_of(alloc, &sorted)?;
        Ok(Rows { starts, targets })
    }

    /// The targets of a node, each once and ascending. Takes no memory.
    pub fn row(&self, node: u32) -> &[u32]
        requires { node < self.now.nodes }
        ensures targets { IsTargets self.now.edges node result.now }
        ensures nodes { All (λ target. target < self.now.nodes) result.now }
    {
        let start = self.starts[node as usize];
        let end = self.starts[node as usize + 1];
        prove!(start <= end);
        prove!(end <= self.targets.len());
        &self.targets[start..end]
    }
}

/// The same edges, each once, by their source and then by their target.
fn ascending(edges: Vec<(u32, u32)>) -> Vec<(u32, u32)>
    ensures same { SameEdges edges.items result.items }
    ensures ascending { IsAscending result.items }
{
    let mut sorted = edges;
    sorted.sort_unstable();
    sorted.dedup();
    sorted
}

/// Where the row of each node starts, and last where the last row ends.
fn row_starts(alloc: Global, nodes: u32, edges: &[(u32, u32)]) -> Result<Vec<usize>, AllocError>
    requires ascending { IsAscending edges.now }
    requires joined { JoinsNodes nodes edges.now }
    ensures { IfOk result (λ starts. AreRowStarts edges.now nodes starts.items) }
{
    let mut starts = Vec::with_capacity(alloc, nodes as usize + 1)?;
    let mut start = 0;
    starts.push(start)?;
    for node in 0..nodes {
        start = next_row(edges, start, node);
        starts.push(start)?;
    }
    Ok(starts)
}

/// Where the row after this node's starts.
fn next_row(edges: &[(u32, u32)], start: usize, node: u32) -> usize
    requires ascending { IsAscending edges.now }
    requires start { IsRowStart edges.now node start }
    ensures { IsRowStart edges.now (node + 1) result }
{
    let mut end = start;
    'row: while end < edges.len() && edges[end].0 == node {
        end += 1;
    }
    end
}

/// The target of each edge.
fn targets_of(alloc: Global, edges: &[(u32, u32)]) -> Result<Vec<u32>, AllocError>
    ensures { IfOk result (λ targets. targets.items ≡ map (λ (edge : ℕ × ℕ). edge.1) edges.now) }
{
    edges.iter().map(|edge| edge.1).collect(alloc)
}

/// The same edges, each turned round.
pub fn turned(alloc: Global, edges: &[(u32, u32)]) -> Result<Vec<(u32, u32)>, AllocError>
    ensures { IfOk result (λ turned. turned.items ≡ map (λ (edge : ℕ × ℕ). (edge.1, edge.0)) edges.now) }
{
    edges.iter().map(|edge| (edge.1, edge.0)).collect(alloc)
}
