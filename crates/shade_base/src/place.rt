//! Places in a text.

/// A place in a text: the bytes before it, and the line and the column that it stands in.
/// Lines and columns are counted from 1, and columns are counted in bytes.
#[derive(Clone, Copy, Debug, PartialEq, Eq)]
pub struct Place {
    pub offset: u32,
    pub line: u32,
    pub column: u32,
}
