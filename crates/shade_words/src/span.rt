//! Values by the words that hold them.

use shade_values::TypeId;

/// The words of a value in a row: `count` from `first` on, as its type lies.
#[derive(Clone, Copy, Debug, PartialEq, Eq)]
pub struct WordSpan {
    pub first: usize,
    pub count: u32,
    pub ty: TypeId,
}
