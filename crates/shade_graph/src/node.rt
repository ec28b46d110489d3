//! The nodes of the uniformity graph, tags and reasons.

use shade_base::Severity;

/// A node of a function's graph. Statements, parameters, parts and arguments are named by their numbers.
#[derive(Clone, Copy, Debug, PartialEq, Eq, PartialOrd, Ord)]
pub enum Node {
    /// What a collective statement of this severity asks to be uniform.
    Required(Severity),
    /// What may differ from lane to lane.
    NonUniform,
    /// Control where the function begins.
    Start,
    /// The value of a parameter.
    Param(u32),
    /// What a pointer parameter points to when the function begins.
    ContentsIn(u32),
    /// What a pointer parameter points to when the function returns.
    ContentsOut(u32),
    /// The value that the function gives.
    Returned,
    /// Control before a statement.
    Before(u32),
    /// Control after a statement.
    After(u32),
    /// Control at the beginning of a part of a statement: the statement, then the part.
    Part(u32, u32),
    /// The value of a statement.
    Value(u32),
    /// What a statement stores: the statement, then the argument of a call, or 0.
    Stored(u32, u32),
}

/// A path through a function from a source to a target that its callers see.
#[derive(Clone, Copy, Debug, PartialEq, Eq)]
pub struct Tag {
    pub source: Node,
    pub target: Node,
}

/// Why a call gives an edge: the number of the call, the function called, and its tag.
#[derive(Clone, Copy, Debug, PartialEq, Eq)]
pub struct Via {
    pub call: u32,
    pub callee: u32,
    pub tag: Tag,
}
