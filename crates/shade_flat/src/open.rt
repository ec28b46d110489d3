//! Open calls.

/// An open call: its function, and where its frame begins in the row.
#[derive(Clone, Copy, Debug, PartialEq, Eq)]
pub struct Open {
    pub function: u32,
    pub base: usize,
}
