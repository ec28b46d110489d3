//! The order of nodes.

ghost use Rattle.std.specs.Prelude.{◌≡◌, ℕ, ◌<◌, ◌↔◌, length, Contains, slice_get, Some, IfSome, IfNone};
ghost use Rattle.shade_graph.specs.Order.{IsAscending};
ghost use Rattle.shade_graph.specs.declared.node.Node.{Node};

use crate::Node;

/// The same nodes in node order, each once. Takes the time of a sort, and no memory.
pub fn in_order(nodes: Vec<Node>) -> Vec<Node>
    ensures same { (node : Node) → Contains result.items node ↔ Contains nodes.items node }
    ensures ascending { IsAscending result.items }
{
    let mut sorted = nodes;
    sorted.sort_unstable();
    sorted.dedup();
    sorted
}

/// The number of a node: its place in node order.
pub fn number_of(nodes: &[Node], node: Node) -> Option<usize>
    requires { IsAscending nodes.now }
    ensures some { IfSome result (λ number. slice_get nodes.now number ≡ Some node) }
    ensures none { IfNone result ((number : ℕ) → slice_get nodes.now number ≡ Some node → ⊥) }
{
    nodes.binary_search(&node).ok()
}
