//! Values: a scalar, or the list of its parts.

use crate::types::Scalar;
use sqlite_items::Items;

/// A value of a scalar type. `false` and `true` are the numbers 0 and 1.
#[derive(Clone, Copy, Debug, PartialEq, Eq)]
pub struct Leaf {
    pub scalar: Scalar,
    pub number: i64,
}

/// A value: of a scalar, or of a vector, an array or a struct with its parts in order.
#[derive(Debug, Drop)]
pub enum Value {
    One(Leaf),
    Many(Items<Value>),
}

/// The parts of a value.
pub type Parts = Items<Value>;
