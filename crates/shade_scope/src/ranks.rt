//! Ranks of nodes, by one search in depth: those that lead to each other have one rank, and edges lead to no higher one.
//! Nothing rests on that: who uses the ranks tests what is needed of them.

ghost use Rattle.std.specs.Prelude.{◌≡◌};
ghost use Rattle.shade_scope.specs.Cycles.{kept};

use shade_reach::Graph;
use sqlite_items::Items;
use std::alloc::{AllocError, Global};

/// A node on the way of the search, and which of its targets is next.
#[derive(Clone, Copy)]
struct Step {
    node: u32,
    next: usize,
}

/// A search in depth. By node: when it came, the first to come that it leads back to, and its rank, each from 1; 0 stands for
/// none yet.
#[derive(Drop)]
struct Search {
    came: Items<u32>,
    back: Items<u32>,
    ranks: Items<u32>,
    open: Items<u32>,
    way: Items<Step>,
    count: u32,
    rank: u32,
}

fn zeros(alloc: Global, count: u32) -> Result<Items<u32>, AllocError> {
    let mut items = Items::new(alloc);
    for _ in 0..count {
        items.push(0)?;
    }
    Ok(items)
}

/// What is kept of a node, or 0.
pub fn kept(items: &[u32], node: u32) -> u32
    ensures { result ≡ kept items.now node }
{
    match items.get(node as usize) {
        Some(item) => *item,
        None => 0,
    }
}

fn keep(items: &mut Items<u32>, node: u32, item: u32) {
    let at = node as usize;
    if at < items.len() {
        items.set(at, item);
    }
}

impl Search {
    fn begin(&mut self, node: u32) -> Result<(), AllocError> {
        self.count = self.count.wrapping_add(1);
        keep(&mut self.came, node, self.count);
        keep(&mut self.back, node, self.count);
        self.open.push(node)?;
        self.way.push(Step { node, next: 0 })
    }

    fn lower(&mut self, node: u32, back: u32) {
        if back < kept(self.back.as_slice(), node) {
            keep(&mut self.back, node, back);
        }
    }

    /// Gives a rank to the nodes that came from a node on.
    fn close(&mut self, node: u32) {
        self.rank = self.rank.wrapping_add(1);
        for _ in 0..u32::MAX {
            let Some(last) = self.open.pop() else {
                return;
            };
            keep(&mut self.ranks, last, self.rank);
            if last == node {
                return;
            }
        }
    }

    fn leave(&mut self, node: u32) {
        let back = kept(self.back.as_slice(), node);
        if back == kept(self.came.as_slice(), node) {
            self.close(node);
        }
        if let Some(last) = self.last() {
            self.lower(last, back);
        }
    }

    fn last(&self) -> Option<u32> {
        let last = self.way.as_slice().last()?;
        Some(last.node)
    }

    fn look(&mut self, node: u32, target: u32) -> Result<(), AllocError> {
        let came = kept(self.came.as_slice(), target);
        if came == 0 {
            return self.begin(target);
        }
        if kept(self.ranks.as_slice(), target) == 0 {
            self.lower(node, came);
        }
        Ok(())
    }

    fn go_on(&mut self, graph: &Graph, nodes: u32) -> Result<(), AllocError>
        requires { nodes ≡ graph.now.nodes }
    {
        let Some(step) = self.way.pop() else {
            return Ok(());
        };
        if step.node >= nodes {
            return Ok(());
        }
        match graph.targets(step.node).get(step.next) {
            Some(target) => {
                self.way.push(Step {
                    node: step.node,
                    next: step.next.wrapping_add(1),
                })?;
                self.look(step.node, *target)
            }
            None => {
                self.leave(step.node);
                Ok(())
            }
        }
    }

    fn search_from(&mut self, graph: &Graph, nodes: u32, root: u32) -> Result<(), AllocError>
        requires { nodes ≡ graph.now.nodes }
    {
        if kept(self.came.as_slice(), root) != 0 {
            return Ok(());
        }
        self.begin(root)?;
        for _ in 0..u64::MAX {
            if self.way.is_empty() {
                return Ok(());
            }
            self.go_on(graph, nodes)?;
        }
        Ok(())
    }
}

/// Ranks of the nodes of a graph. Takes time and memory in the order of the graph.
pub fn ranks_of(alloc: Global, graph: &Graph, nodes: u32) -> Result<Items<u32>, AllocError>
    requires { nodes ≡ graph.now.nodes }
{
    let mut search = Search {
        came: zeros(alloc, nodes)?,
        back: zeros(alloc, nodes)?,
        ranks: zeros(alloc, nodes)?,
        open: Items::new(alloc),
        way: Items::new(alloc),
        count: 0,
        rank: 0,
    };
    for root in 0..nodes {
        search.search_from(graph, nodes, root)?;
    }
    let Search { ranks, .. } = search;
    Ok(ranks)
}
