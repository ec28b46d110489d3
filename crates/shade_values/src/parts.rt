//! Copies of values, and their parts.

ghost use Rattle.std.specs.Prelude.{◌≡◌, ◌≤◌, ◌<◌, ◌↔◌, IsTrue, IfOk, length, slice_index_or};
ghost use Rattle.shade_values.specs.Parts.{no_value, own_leaf, parts_of, part_at, lane, lanes};

use crate::types::Scalar;
use crate::value::{Leaf, Parts, Value};
use sqlite_items::Items;
use std::alloc::{AllocError, Global};

/// What stands where a value has no such part.
pub(crate) const NO_LEAF: Leaf = Leaf {
    scalar: Scalar::Bool,
    number: 0,
};

/// A copy of a value.
#[cycle(copies)]
pub fn copy_value(alloc: Global, value: &Value) -> Result<Value, AllocError>
    ensures { IfOk result (λ v. v ≡ value.now) }
{
    match value {
        Value::One(leaf) => Ok(Value::One(*leaf)),
        Value::Many(parts) => Ok(Value::Many(copy_parts(alloc, parts)?)),
    }
}

#[cycle(copies)]
fn copy_parts(alloc: Global, parts: &Parts) -> Result<Parts, AllocError>
    ensures { IfOk result (λ l. l ≡ parts.now) }
{
    let mut copies = Items::new(alloc);
    for part in parts.as_slice() {
        copies.push(copy_value(alloc, part)?)?;
    }
    Ok(copies)
}

/// Whether two values are equal. Takes no memory.
#[cycle(same)]
pub fn same_value(a: &Value, b: &Value) -> bool
    ensures { IsTrue result ↔ (a.now ≡ b.now) }
{
    match (a, b) {
        (Value::One(x), Value::One(y)) => *x == *y,
        (Value::Many(x), Value::Many(y)) => same_parts(x, y),
        _ => false,
    }
}

#[cycle(same)]
fn same_parts(a: &Parts, b: &Parts) -> bool
    ensures { IsTrue result ↔ (a.now ≡ b.now) }
{
    let xs = a.as_slice();
    let ys = b.as_slice();
    if xs.len() != ys.len() {
        return false;
    }
    for (i, x) in xs.iter().enumerate() {
        if !same_value(x, &ys[i]) {
            return false;
        }
    }
    true
}

/// Copies of values.
pub(crate) fn copy_all(alloc: Global, values: &[Value]) -> Result<Parts, AllocError>
    ensures { IfOk result (λ l. l ≡ values.now) }
{
    let mut copies = Items::new(alloc);
    for value in values {
        copies.push(copy_value(alloc, value)?)?;
    }
    Ok(copies)
}

/// The leaf that a scalar value is.
pub(crate) fn own_leaf(value: &Value) -> Leaf
    ensures { result ≡ own_leaf value.now }
{
    match value {
        Value::One(leaf) => *leaf,
        Value::Many(_) => NO_LEAF,
    }
}

/// Part `k` of a vector. A scalar stands for each of its parts.
pub(crate) fn lane(k: usize, value: &Value) -> Leaf
    ensures { result ≡ lane k value.now }
{
    match value {
        Value::One(leaf) => *leaf,
        Value::Many(parts) => leaf_at(parts.as_slice(), k),
    }
}

fn leaf_at(parts: &[Value], k: usize) -> Leaf
    ensures { result ≡ own_leaf (slice_index_or parts.now k no_value) }
{
    if k < parts.len() {
        own_leaf(&parts[k])
    } else {
        NO_LEAF
    }
}

/// How many parts a vector, an array or a struct has.
pub(crate) fn part_count(value: &Value) -> usize
    ensures { result ≡ length (parts_of value.now) }
{
    match value {
        Value::One(_) => 0,
        Value::Many(parts) => parts.len(),
    }
}

/// A copy of the part with a number.
pub(crate) fn copy_part(alloc: Global, value: &Value, k: usize) -> Result<Value, AllocError>
    ensures { IfOk result (λ v. v ≡ part_at value.now k) }
{
    match value {
        Value::One(_) => Ok(Value::One(NO_LEAF)),
        Value::Many(parts) => copy_at(alloc, parts.as_slice(), k),
    }
}

fn copy_at(alloc: Global, parts: &[Value], k: usize) -> Result<Value, AllocError>
    ensures { IfOk result (λ v. v ≡ slice_index_or parts.now k no_value) }
{
    if k < parts.len() {
        copy_value(alloc, &parts[k])
    } else {
        Ok(Value::One(NO_LEAF))
    }
}

/// How many parts the vectors among some values have; `None` where all are scalars.
pub(crate) fn lanes(values: &[Value]) -> Option<usize>
    ensures { result ≡ lanes values.now }
{
    for value in values {
        if let Value::Many(parts) = value {
            return Some(parts.len());
        }
    }
    None
}
