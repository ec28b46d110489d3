//! Violations and the paths that show them.

use shade_base::Severity;
use shade_graph::{Node, Via};
use sqlite_items::Items;

/// A node of a path, and the reason of the edge into it where only a call's tag gives that edge.
#[derive(Clone, Copy, Debug, PartialEq, Eq)]
pub struct PathStep {
    pub node: Node,
    pub via: Option<Via>,
}

/// The nodes of a path, from its first to its last.
pub type NodePath = Items<PathStep>;

/// A place where something must be uniform that may not be: the number of the function, the severity, the least statement
/// that asks for it, and the path from the required node to the non-uniform node.
#[derive(Drop)]
pub struct Violation {
    pub function: u32,
    pub severity: Severity,
    pub site: u32,
    pub path: NodePath,
}
