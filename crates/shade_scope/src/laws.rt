//! What holds of every tree.

ghost use Rattle.std.specs.Prelude.{◌≡◌};
ghost use Rattle.shade_ast.specs.Nodes.{tree_nodes};
ghost use Rattle.shade_events.specs.Events.{tree_events};
ghost use Rattle.shade_scope.specs.Resolved.{event_nodes};

use shade_ast::Tree;

/// The events of a tree have each of its nodes once, in postorder; so what is told of all events is told of all nodes.
pub fn events_have_each_node(tree: &Tree)
    ensures { event_nodes (tree_events tree.now) ≡ tree_nodes tree.now }
{}
