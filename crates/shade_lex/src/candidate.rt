//! An opener whose list is open.

/// A `<` that may open a template list, by its place among the tokens, and the depth that it stands at.
#[derive(Clone, Copy, Debug, PartialEq, Eq)]
pub struct Candidate {
    pub at: usize,
    pub depth: usize,
}
