//! What a search gives: distances and paths, which contracts see as lists.

ghost use Rattle.std.specs.Prelude.{◌≡◌, nat_eq, length, slice_get};
ghost use Rattle.std.specs.Option.{option_eq};
ghost use Rattle.std.specs.Cmp.{partial_equiv_from_equiv, nat_eq_equiv};
ghost use Rattle.std.specs.Cmp.Lexicographic.{lists_equiv, options_equiv, nat_list_eq_equiv, pointwise};

use std::marker::Model;

/// For each node the length of a shortest path to one target, in edges, or `None` where no path leads there.
#[derive(Debug, Drop)]
pub struct Distances {
    items: Vec<Option<u32>>,
}

impl Model for Distances {
    ghost use Rattle.std.specs.Prelude.{List, ℕ, Option};

    ghost Value = { List (Option ℕ) };

    ghost view = { λ d. d.items.items };
}

impl Distances {
    /// The distances in the order of their nodes. Takes no memory.
    pub fn from_vec(items: Vec<Option<u32>>) -> Distances
        ensures { result ≡ items.items }
    {
        Distances { items }
    }

    /// Gives the vector back. Takes no memory.
    pub fn into_vec(self) -> Vec<Option<u32>>
        ensures { result.items ≡ self }
    {
        let Distances { items } = self;
        items
    }

    /// The distances in the order of their nodes.
    pub fn as_slice(&self) -> &[Option<u32>]
        ensures { result.now ≡ self.now }
    {
        self.items.as_slice()
    }
}

impl PartialEq for Distances {
    ghost eq = { λ a b. pointwise (option_eq nat_eq) a b };

    ghost laws = { partial_equiv_from_equiv (lists_equiv (options_equiv nat_eq_equiv)) };

    fn eq(&self, other: &Distances) -> bool {
        self.items == other.items
    }
}

impl Eq for Distances {
    ghost laws = { lists_equiv (options_equiv nat_eq_equiv) };
}

/// A list of nodes, each joined to the next by an edge.
#[derive(Debug, Drop)]
pub struct Path {
    nodes: Vec<u32>,
}

impl Model for Path {
    ghost use Rattle.std.specs.Prelude.{List, ℕ};

    ghost Value = { List ℕ };

    ghost view = { λ p. p.nodes.items };
}

impl Path {
    /// The nodes in order. Takes no memory.
    pub fn from_vec(nodes: Vec<u32>) -> Path
        ensures { result ≡ nodes.items }
    {
        Path { nodes }
    }

    /// Gives the vector back. Takes no memory.
    pub fn into_vec(self) -> Vec<u32>
        ensures { result.items ≡ self }
    {
        let Path { nodes } = self;
        nodes
    }

    /// The nodes in order, the first and the last among them.
    pub fn as_slice(&self) -> &[u32]
        ensures { result.now ≡ self.now }
    {
        self.nodes.as_slice()
    }
}

impl PartialEq for Path {
    ghost eq = { λ a b. pointwise nat_eq a b };

    ghost laws = { partial_equiv_from_equiv nat_list_eq_equiv };

    fn eq(&self, other: &Path) -> bool {
        self.nodes == other.nodes
    }
}

impl Eq for Path {
    ghost laws = { nat_list_eq_equiv };
}
