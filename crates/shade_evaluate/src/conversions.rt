//! What AbstractInt converts to.

ghost use Rattle.std.specs.Prelude.{◌≡◌, IfOk, map};
ghost use Rattle.std.specs.List.{list_all};
ghost use Rattle.shade_evaluate.specs.Fits.{has_number, is_abstract, leaf_fits, leaf_as, fits, value_as};

use shade_values::{Leaf, Parts, Scalar, Value};
use sqlite_items::Items;
use std::alloc::{AllocError, Global};

/// Whether a scalar has a number.
pub(crate) fn has_number(scalar: Scalar, number: i64) -> bool
    ensures { result ≡ has_number scalar number }
{
    match scalar {
        Scalar::Bool => 0 <= number && number <= 1,
        Scalar::I32 => -2_147_483_648 <= number && number <= 2_147_483_647,
        Scalar::U32 => 0 <= number && number <= 4_294_967_295,
        Scalar::Abstract => true,
    }
}

pub(crate) fn is_abstract(scalar: Scalar) -> bool
    ensures { result ≡ is_abstract scalar }
{
    scalar == Scalar::Abstract
}

fn leaf_fits(to: Scalar, leaf: Leaf) -> bool
    ensures { result ≡ leaf_fits to leaf }
{
    !is_abstract(leaf.scalar) || has_number(to, leaf.number)
}

fn leaf_as(to: Scalar, leaf: Leaf) -> Leaf
    ensures { result ≡ leaf_as to leaf }
{
    if is_abstract(leaf.scalar) {
        return Leaf {
            scalar: to,
            number: leaf.number,
        };
    }
    leaf
}

/// Tells whether each number of AbstractInt in a value is one of a scalar. Takes no memory.
#[cycle(fits)]
pub fn fits(to: Scalar, value: &Value) -> bool
    ensures { result ≡ fits to value.now }
{
    match value {
        Value::One(leaf) => leaf_fits(to, *leaf),
        Value::Many(parts) => all_fit(to, parts),
    }
}

#[cycle(fits)]
fn all_fit(to: Scalar, parts: &Parts) -> bool
    ensures { result ≡ list_all (fits to) parts.now }
{
    for part in parts.as_slice() {
        if !fits(to, part) {
            return false;
        }
    }
    true
}

/// Makes a value whose parts of AbstractInt have this scalar and the same numbers. Takes memory for its lists of parts.
#[cycle(converts)]
pub fn value_as(alloc: Global, to: Scalar, value: &Value) -> Result<Value, AllocError>
    ensures { IfOk result (λ v. v ≡ value_as to value.now) }
{
    match value {
        Value::One(leaf) => Ok(Value::One(leaf_as(to, *leaf))),
        Value::Many(parts) => Ok(Value::Many(parts_as(alloc, to, parts)?)),
    }
}

#[cycle(converts)]
fn parts_as(alloc: Global, to: Scalar, parts: &Parts) -> Result<Parts, AllocError>
    ensures { IfOk result (λ l. l ≡ map (value_as to) parts.now) }
{
    let mut made = Items::new(alloc);
    for part in parts.as_slice() {
        made.push(value_as(alloc, to, part)?)?;
    }
    Ok(made)
}
