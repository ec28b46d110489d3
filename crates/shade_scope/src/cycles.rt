//! Declarations of the module that need themselves.

ghost use Rattle.std.specs.Prelude.{◌≡◌, ◌↔◌, ◌+◌, ◌<◌, ◌≤◌, ◌^◌, ◌++◌, ◌∷◌, [], List, Contains, IfOk, IsTrue, nat_le, nat_lt};
ghost use Rattle.std.specs.List.{list_all, list_any};
ghost use Rattle.shade_reach.specs.Digraph.{JoinsNodes};
ghost use Rattle.shade_scope.specs.Cycles.{AreSmall, Cyclic, IsCycle, IsRanked, NeverRises, head_of, heads_of, is_reached, kept};
ghost use Rattle.shade_scope.specs.Faults.{IsLeast};

use crate::fault::ScopeFault;
use crate::naming::is_no_later;
use crate::ranks::{kept, ranks_of};
use shade_ast::Decl;
use shade_base::Place;
use shade_events::declared_node;
use shade_reach::Graph;
use sqlite_items::Items;
use std::alloc::{AllocError, Global};

/// A declaration of the module, by its node and the place of its first token.
#[derive(Clone, Copy, Debug, PartialEq, Eq)]
pub struct Head {
    pub node: u32,
    pub place: Place,
}

fn head_of(decl: &Decl) -> Head
    ensures { result ≡ head_of decl.now }
{
    Head {
        node: declared_node(decl),
        place: decl.place,
    }
}

fn heads_of(alloc: Global, decls: &[Decl]) -> Result<Items<Head>, AllocError>
    ensures { IfOk result (λ heads. heads ≡ heads_of decls.now) }
{
    let mut heads = Items::new(alloc);
    for decl in decls {
        heads.push(head_of(decl))?;
    }
    Ok(heads)
}

/// A count above a node, not below another.
fn above(count: u32, node: u32) -> u32
    requires { node + 1 < 2 ^ 32 }
    ensures low { count ≤ result }
    ensures high { node < result }
{
    if node < count {
        return count;
    }
    node + 1
}

/// A count above both ends of a link, not below another.
fn above_both(count: u32, link: (u32, u32)) -> u32
    requires from { link.0 + 1 < 2 ^ 32 }
    requires to { link.1 + 1 < 2 ^ 32 }
    ensures low { count ≤ result }
    ensures from { link.0 < result }
    ensures to { link.1 < result }
{
    above(above(count, link.0), link.1)
}

/// How many nodes a graph with some edges must have.
fn node_count(links: &[(u32, u32)]) -> u32
    requires { AreSmall links.now }
    ensures { JoinsNodes result links.now }
{
    let mut nodes = 0;
    for link in links {
        nodes = above_both(nodes, *link);
    }
    nodes
}

fn is_reached(distances: &[Option<u32>], node: u32) -> bool
    ensures { result ≡ is_reached distances.now node }
{
    match distances.get(node as usize) {
        Some(Some(_)) => true,
        _ => false,
    }
}

fn reaches_any(distances: &[Option<u32>], targets: &[u32]) -> bool
    ensures { result ≡ list_any (is_reached distances.now) targets.now }
{
    targets.iter().any(|target| is_reached(distances, *target))
}

/// Whether a way leads from a node back to it. Takes time and memory in the order of the graph.
fn is_cyclic(alloc: Global, graph: &Graph, node: u32) -> Result<bool, AllocError>
    requires { node < graph.now.nodes }
    ensures { IfOk result (λ answer. IsTrue answer ↔ Cyclic graph.now.edges node) }
{
    let distances = graph.distance_to(alloc, node)?;
    Ok(reaches_any(distances.as_slice(), graph.targets(node)))
}

/// Whether the edges from a node lead to no rank above its own.
fn holds_at(ranks: &[u32], targets: &[u32], from: u32) -> bool
    ensures { result ≡ list_all (λ to. nat_le (kept ranks.now to) (kept ranks.now from)) targets.now }
{
    targets
        .iter()
        .all(|to| kept(ranks, *to) <= kept(ranks, from))
}

/// Whether the edges from a node lead below its rank.
fn falls_at(ranks: &[u32], targets: &[u32], from: u32) -> bool
    ensures { result ≡ list_all (λ to. nat_lt (kept ranks.now to) (kept ranks.now from)) targets.now }
{
    targets
        .iter()
        .all(|to| kept(ranks, *to) < kept(ranks, from))
}

/// Whether no edge leads to a higher rank.
fn never_rises(graph: &Graph, nodes: u32, ranks: &[u32]) -> bool
    requires nodes { nodes ≡ graph.now.nodes }
    requires joins { JoinsNodes nodes graph.now.edges }
    ensures { IsTrue result → NeverRises graph.now.edges ranks.now }
{
    for node in 0..nodes {
        if !holds_at(ranks, graph.targets(node), node) {
            return false;
        }
    }
    true
}

/// The graph of uses, with ranks of its nodes, and whether no edge leads to a higher one.
#[derive(Drop)]
pub struct Ranked {
    pub graph: Graph,
    pub nodes: u32,
    pub ranks: Items<u32>,
    pub steady: bool,
}

fn with_ranks(alloc: Global, graph: Graph, nodes: u32) -> Result<Ranked, AllocError>
    requires nodes { nodes ≡ graph.nodes }
    requires joins { JoinsNodes nodes graph.edges }
    ensures ranked { IfOk result IsRanked }
    ensures graph { IfOk result (λ r. r.graph ≡ graph) }
{
    let ranks = ranks_of(alloc, &graph, nodes)?;
    let steady = never_rises(&graph, nodes, ranks.as_slice());
    Ok(Ranked {
        graph,
        nodes,
        ranks,
        steady,
    })
}

/// The first cycle that is told, once one more declaration is looked at. Where the ranks fall from it, no way leads back.
fn with_head(
    alloc: Global,
    ranked: &Ranked,
    least: Option<ScopeFault>,
    head: Head,
) -> Result<Option<ScopeFault>, AllocError>
    requires { IsRanked ranked.now }
    ensures { IfOk result (λ new. (heads : List Head) → IsLeast (IsCycle ranked.now.graph.edges heads) least → IsLeast (IsCycle ranked.now.graph.edges (heads ++ head ∷ [])) new) }
{
    let told = ScopeFault::Cycle(head.place);
    if is_no_later(least, told) {
        return Ok(least);
    }
    if head.node >= ranked.nodes {
        return Ok(least);
    }
    if ranked.steady
        && falls_at(
            ranked.ranks.as_slice(),
            ranked.graph.targets(head.node),
            head.node,
        )
    {
        return Ok(least);
    }
    if is_cyclic(alloc, &ranked.graph, head.node)? {
        return Ok(Some(told));
    }
    Ok(least)
}

fn least_of_heads(
    alloc: Global,
    ranked: &Ranked,
    heads: &[Head],
) -> Result<Option<ScopeFault>, AllocError>
    requires { IsRanked ranked.now }
    ensures { IfOk result (λ least. IsLeast (IsCycle ranked.now.graph.edges heads.now) least) }
{
    let mut least = None;
    for head in heads {
        least = with_head(alloc, ranked, least, *head)?;
    }
    Ok(least)
}

/// The first declaration that needs itself, in the order of their places. Takes time and memory in the order of the uses, and
/// for each search that the ranks do not save.
pub fn least_cycle(
    alloc: Global,
    decls: &[Decl],
    links: Vec<(u32, u32)>,
) -> Result<Option<ScopeFault>, AllocError>
    requires { AreSmall links.items }
    ensures { IfOk result (λ least. IsLeast (IsCycle links.items (heads_of decls.now)) least) }
{
    let heads = heads_of(alloc, decls)?;
    let nodes = node_count(&links);
    let graph = Graph::new(alloc, nodes, links)?;
    let ranked = with_ranks(alloc, graph, nodes)?;
    least_of_heads(alloc, &ranked, heads.as_slice())
}
