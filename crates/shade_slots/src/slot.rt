//! Where one value lies.

use shade_values::TypeId;

/// The words of one value in a frame: from a first one on, as its type lies. Without a type there is no value, and no word.
#[derive(Clone, Copy, Debug, PartialEq, Eq)]
pub struct Slot {
    pub first: usize,
    pub ty: Option<TypeId>,
}
