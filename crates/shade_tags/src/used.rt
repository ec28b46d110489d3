//! The tags that printed paths use.

use shade_graph::Tag;
use shade_verdict::NodePath;

/// A tag of a function that a printed path names, and the least path that shows it.
#[derive(Drop)]
pub struct UsedTag {
    /// The number of the function.
    pub function: u32,
    pub tag: Tag,
    /// From the source of the tag to its target.
    pub path: NodePath,
}
