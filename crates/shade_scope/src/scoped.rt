//! A tree with what its names mean and how grave violations are at its nodes.

ghost use Rattle.std.specs.Prelude.{◌≡◌};
ghost use Rattle.shade_scope.specs.Ranges.{severity_at};

use crate::lists::{Filters, Uses};
use shade_ast::Tree;
use shade_base::Severity;

/// What a use of a name means.
#[derive(Clone, Copy, Debug, PartialEq, Eq)]
pub enum Meaning {
    /// What the node with this number declares: that of the name in the declaration.
    Declared(u32),
    /// What a word means without a declaration.
    Predeclared,
}

/// A tree, what each use of a name means, and how grave a violation is at each node, both by the number of the node.
#[derive(Drop)]
pub struct Scoped {
    pub tree: Tree,
    pub uses: Uses,
    pub filters: Filters,
}

/// Gives how grave a violation is at a node: by the filter for `lanes.uniformity` of the nearest range around it that has one, and else an
/// error, as for a number that is no node. Takes no memory.
pub fn severity_at(scoped: &Scoped, node: u32) -> Severity
    ensures { result ≡ severity_at scoped.now.filters node }
{
    match scoped.filters.as_slice().get(node as usize) {
        Some(severity) => *severity,
        None => Severity::Error,
    }
}
