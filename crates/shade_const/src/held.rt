//! Values while an expression is evaluated.

ghost use Rattle.std.specs.Prelude.{◌≡◌, slice_index_or, IfOk};
ghost use Rattle.shade_values.specs.Parts.{no_value, part_at};
ghost use Rattle.shade_const.specs.Held.{value_in};

use shade_values::{Leaf, Parts, Scalar, Value, copy_value};
use std::alloc::{AllocError, Global};

/// What stands where a value has no such part.
const NO_LEAF: Leaf = Leaf {
    scalar: Scalar::Bool,
    number: 0,
};

/// A value: one that the facts hold, or a new one.
#[derive(Debug, Drop)]
pub(crate) enum Held<'f> {
    Lent(&'f Value),
    Own(Value),
}

/// The value itself; one that the facts hold is copied.
pub(crate) fn into_value(alloc: Global, held: Held<'_>) -> Result<Value, AllocError>
    ensures { IfOk result (λ v. v ≡ value_in held.entry) }
{
    match held {
        Held::Lent(value) => copy_value(alloc, value),
        Held::Own(value) => Ok(value),
    }
}

/// What is held, to look at.
pub(crate) fn seen<'a>(held: &'a Held<'_>) -> &'a Value
    ensures { result.now ≡ value_in held.now }
{
    match held {
        Held::Lent(value) => *value,
        Held::Own(value) => value,
    }
}

/// The part with a number; none is copied.
pub(crate) fn part<'f>(held: Held<'f>, k: usize) -> Held<'f>
    ensures { value_in result ≡ part_at (value_in held.entry) k }
{
    match held {
        Held::Lent(value) => lent_part(value, k),
        Held::Own(value) => Held::Own(own_part(value, k)),
    }
}

fn lent_part<'f>(value: &'f Value, k: usize) -> Held<'f>
    ensures { value_in result ≡ part_at value.now k }
{
    match value {
        Value::One(_) => Held::Own(Value::One(NO_LEAF)),
        Value::Many(parts) => lent_at(parts.as_slice(), k),
    }
}

fn lent_at<'f>(parts: &'f [Value], k: usize) -> Held<'f>
    ensures { value_in result ≡ slice_index_or parts.now k no_value }
{
    if k < parts.len() {
        return Held::Lent(&parts[k]);
    }
    Held::Own(Value::One(NO_LEAF))
}

fn own_part(value: Value, k: usize) -> Value
    ensures { result ≡ part_at value k }
{
    match value {
        Value::One(_) => Value::One(NO_LEAF),
        Value::Many(parts) => own_at(parts, k),
    }
}

fn own_at(parts: Parts, k: usize) -> Value
    ensures { result ≡ slice_index_or parts k no_value }
{
    let mut rest = parts;
    if k < rest.len() {
        return rest.remove(k);
    }
    Value::One(NO_LEAF)
}
