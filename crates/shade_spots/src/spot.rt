//! Places in shared memory.

use shade_values::TypeId;

/// Words of a variable of the module, from one on, in which a value of a type lies.
#[derive(Clone, Copy, Debug, PartialEq, Eq)]
pub struct Spot {
    pub root: u32,
    pub first: u32,
    pub ty: TypeId,
}
