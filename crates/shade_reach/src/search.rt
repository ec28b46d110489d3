//! The state of a breadth-first search.

ghost use Rattle.std.specs.Prelude.{◌≡◌, ℕ, ◌<◌, ◌^◌, [], ◌∷◌, length, None, Some, slice_get, slice_set, replicate, vec_len, IfOk, OnOk};
ghost use Rattle.shade_reach.specs.Search.{IsMarked, Marks};

use std::alloc::{AllocError, Global};

/// The nodes found so far, and how far each is from the target.
#[derive(Drop)]
pub struct Search {
    pub distances: Vec<Option<u32>>,
    /// Nearest first, each once.
    pub found: Vec<u32>,
}

impl Search {
    /// The target is found, and no other node.
    pub fn new(alloc: Global, nodes: u32, target: u32) -> Result<Search, AllocError>
        requires { target < nodes }
        ensures distances { IfOk result (λ search. search.distances.items ≡ slice_set (replicate nodes None) target (Some 0)) }
        ensures found { IfOk result (λ search. search.found.items ≡ target ∷ []) }
    {
        let mut distances = vec![in alloc; None; nodes as usize]?;
        distances[target as usize] = Some(0);
        let mut found = Vec::with_capacity(alloc, nodes as usize)?;
        found.push(target)?;
        Ok(Search { distances, found })
    }

    /// The distance of a node that is found.
    pub fn distance_of(&self, node: u32) -> u32
        requires { (distance : ℕ) × IsMarked self.now.distances.items node distance }
        ensures { IsMarked self.now.distances.items node result }
    {
        match self.distances[node as usize] {
            Some(distance) => distance,
            None => unreachable!(),
        }
    }

    /// Finds a node at this distance, unless it is found already.
    pub fn mark(&mut self, node: u32, distance: u32) -> Result<(), AllocError>
        requires { node < vec_len self.old.distances }
        ensures { OnOk result (Marks self.old.distances.items self.old.found.items node distance self.new.distances.items self.new.found.items) }
    {
        if self.distances[node as usize].is_some() {
            return Ok(());
        }
        self.found.push(node)?;
        self.distances[node as usize] = Some(distance);
        Ok(())
    }
}
