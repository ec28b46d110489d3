//! The parts of operands.

ghost use Rattle.std.specs.Prelude.{◌≡◌, length, slice_index_or};
ghost use Rattle.shade_values.specs.Parts.{no_value, own_leaf, parts_of, lane, lanes};

use shade_values::{Leaf, Scalar, Value};

/// What stands where an operand has no such part.
const NO_LEAF: Leaf = Leaf {
    scalar: Scalar::Bool,
    number: 0,
};

/// Gives the leaf that a scalar is; of another value the number 0 of `bool`. Takes no memory.
pub fn own_leaf(value: &Value) -> Leaf
    ensures { result ≡ own_leaf value.now }
{
    match value {
        Value::One(leaf) => *leaf,
        Value::Many(_) => NO_LEAF,
    }
}

/// Part `k` of a vector. A scalar stands for each of its parts.
pub(crate) fn lane(k: usize, value: &Value) -> Leaf
    ensures { result ≡ lane k value.now }
{
    match value {
        Value::One(leaf) => *leaf,
        Value::Many(parts) => leaf_at(parts.as_slice(), k),
    }
}

fn leaf_at(parts: &[Value], k: usize) -> Leaf
    ensures { result ≡ own_leaf (slice_index_or parts.now k no_value) }
{
    if k < parts.len() {
        own_leaf(&parts[k])
    } else {
        NO_LEAF
    }
}

/// How many parts a vector, an array or a struct has.
pub(crate) fn part_count(value: &Value) -> usize
    ensures { result ≡ length (parts_of value.now) }
{
    match value {
        Value::One(_) => 0,
        Value::Many(parts) => parts.len(),
    }
}

/// How many parts the vectors among some operands have; `None` where all are scalars.
pub(crate) fn lanes(values: &[Value]) -> Option<usize>
    ensures { result ≡ lanes values.now }
{
    for value in values {
        if let Value::Many(parts) = value {
            return Some(parts.len());
        }
    }
    None
}
