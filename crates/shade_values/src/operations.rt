//! The operations on values.

ghost use Rattle.std.specs.Prelude.{◌≡◌, ◌++◌, ◌∷◌, [], IfOk, OnOk, map, length, replicate, take};
ghost use Rattle.std.specs.List.{list_all, list_any, flat_map, range_with_len};
ghost use Rattle.shade_values.specs.Parts.{leaves_of, lane, own_leaf, part_at, parts_of};
ghost use Rattle.shade_values.specs.Numbers.{nearest};
ghost use Rattle.shade_values.specs.Apply.{Apply, at_lane, by_parts, is_true, dot, converted_part, vector_parts};

use crate::bits;
use crate::numbers::{kept, nearest, truth};
use crate::op::Op;
use crate::parts::{NO_LEAF, copy_all, copy_part, lane, lanes, own_leaf, part_count};
use crate::scalars::leaf;
use crate::types::Scalar;
use crate::value::{Leaf, Parts, Value};
use sqlite_items::Items;
use std::alloc::{AllocError, Global};

/// The operation on values.
pub fn apply(alloc: Global, op: Op, args: &[Value]) -> Result<Value, AllocError>
    ensures { IfOk result (λ v. v ≡ Apply op args.now) }
{
    match (op, args) {
        (Op::Vector(count, scalar), _) => Ok(Value::Many(vector(alloc, count, scalar, args)?)),
        (Op::Make(_), _) => Ok(Value::Many(copy_all(alloc, args)?)),
        (Op::Member(number), [value]) => copy_part(alloc, value, number as usize),
        (Op::Index, [value, index]) => copy_element(alloc, value, own_leaf(index)),
        (Op::Swizzle(count, letters), [value]) => swizzle(alloc, count, letters, value),
        (Op::All, [value]) => Ok(Value::One(truth(all_true(value)))),
        (Op::Any, [value]) => Ok(Value::One(truth(any_true(value)))),
        (Op::Dot, [left, right]) => Ok(Value::One(dot(left, right))),
        _ => part_by_part(alloc, op, args),
    }
}

/// The operation on part `k` of each argument.
fn at_lane(op: Op, args: &[Value], k: usize) -> Leaf
    ensures { result ≡ at_lane op args.now k }
{
    match args {
        [a] => bits::unary(op, lane(k, a)),
        [a, b] => leaf(op, lane(k, a), lane(k, b)),
        [a, b, c] => bits::ternary(op, lane(k, a), lane(k, b), lane(k, c)),
        [a, b, c, d] => bits::quaternary(op, lane(k, a), lane(k, b), lane(k, c), lane(k, d)),
        _ => NO_LEAF,
    }
}

/// The operation part by part. A scalar stands for each part of a vector.
fn part_by_part(alloc: Global, op: Op, args: &[Value]) -> Result<Value, AllocError>
    ensures { IfOk result (λ v. v ≡ by_parts op args.now) }
{
    match lanes(args) {
        None => Ok(Value::One(at_lane(op, args, 0))),
        Some(count) => Ok(Value::Many(each_lane(alloc, op, args, count)?)),
    }
}

fn each_lane(alloc: Global, op: Op, args: &[Value], count: usize) -> Result<Parts, AllocError>
    ensures { IfOk result (λ l. l ≡ map (λ k. Value.One (at_lane op args.now k)) (range_with_len 0 count)) }
{
    let mut parts = Items::new(alloc);
    for k in 0..count {
        parts.push(Value::One(at_lane(op, args, k)))?;
    }
    Ok(parts)
}

/// A copy of the part that an index names, or of the nearest one.
fn copy_element(alloc: Global, value: &Value, index: Leaf) -> Result<Value, AllocError>
    ensures { IfOk result (λ v. v ≡ part_at value.now (nearest index.number (length (parts_of value.now)))) }
{
    copy_part(alloc, value, nearest(index.number, part_count(value)))
}

fn swizzle(alloc: Global, count: u8, letters: [u8; 4], value: &Value) -> Result<Value, AllocError>
    ensures { IfOk result (λ v. v ≡ Value.Many (map (λ k. Value.One (lane k value.now)) (take count letters))) }
{
    let chosen = usize::from(count).min(letters.len());
    Ok(Value::Many(picked(alloc, &letters[..chosen], value)?))
}

fn picked(alloc: Global, letters: &[u8], value: &Value) -> Result<Parts, AllocError>
    ensures { IfOk result (λ l. l ≡ map (λ k. Value.One (lane k value.now)) letters.now) }
{
    let mut parts = Items::new(alloc);
    for letter in letters {
        parts.push(Value::One(lane(usize::from(*letter), value)))?;
    }
    Ok(parts)
}

fn is_true(leaf: Leaf) -> bool
    ensures { result ≡ is_true leaf }
{
    leaf.number != 0
}

/// Whether each part is true.
fn all_true(value: &Value) -> bool
    ensures { result ≡ list_all is_true (leaves_of value.now) }
{
    match value {
        Value::One(leaf) => is_true(*leaf),
        Value::Many(parts) => all_of(parts.as_slice()),
    }
}

fn all_of(parts: &[Value]) -> bool
    ensures { result ≡ list_all (λ v. is_true (own_leaf v)) parts.now }
{
    parts.iter().all(|part| is_true(own_leaf(part)))
}

/// Whether some part is true.
fn any_true(value: &Value) -> bool
    ensures { result ≡ list_any is_true (leaves_of value.now) }
{
    match value {
        Value::One(leaf) => is_true(*leaf),
        Value::Many(parts) => any_of(parts.as_slice()),
    }
}

fn any_of(parts: &[Value]) -> bool
    ensures { result ≡ list_any (λ v. is_true (own_leaf v)) parts.now }
{
    parts.iter().any(|part| is_true(own_leaf(part)))
}

/// The products of the parts, added.
fn dot(left: &Value, right: &Value) -> Leaf
    ensures { result ≡ dot left.now right.now }
{
    let mut total: i64 = 0;
    for k in 0..part_count(left) {
        let product = lane(k, left).number.wrapping_mul(lane(k, right).number);
        total = total.wrapping_add(product);
    }
    kept(lane(0, left).scalar, total)
}

/// The parts of a vector of these arguments: of none zeros, of one scalar that scalar in each part.
fn vector(alloc: Global, count: u8, scalar: Scalar, args: &[Value]) -> Result<Parts, AllocError>
    ensures { IfOk result (λ l. l ≡ vector_parts count scalar args.now) }
{
    match args {
        [] => filled(alloc, count, Leaf { scalar, number: 0 }),
        [value] => vector_of_one(alloc, count, scalar, value),
        _ => joined(alloc, scalar, args),
    }
}

fn vector_of_one(
    alloc: Global,
    count: u8,
    scalar: Scalar,
    value: &Value,
) -> Result<Parts, AllocError>
    ensures { IfOk result (λ l. l ≡ vector_parts count scalar (value.now ∷ [])) }
{
    match value {
        Value::One(leaf) => filled(alloc, count, bits::converted(scalar, *leaf)),
        Value::Many(parts) => {
            let mut all = Items::new(alloc);
            add_all(scalar, parts.as_slice(), &mut all)?;
            Ok(all)
        }
    }
}

fn filled(alloc: Global, count: u8, leaf: Leaf) -> Result<Parts, AllocError>
    ensures { IfOk result (λ l. l ≡ replicate count (Value.One leaf)) }
{
    let mut parts = Items::new(alloc);
    for _part in 0..count {
        parts.push(Value::One(leaf))?;
    }
    Ok(parts)
}

/// The leaves of all arguments in this scalar.
fn joined(alloc: Global, scalar: Scalar, args: &[Value]) -> Result<Parts, AllocError>
    ensures { IfOk result (λ l. l ≡ map (converted_part scalar) (flat_map leaves_of args.now)) }
{
    let mut parts = Items::new(alloc);
    for value in args {
        add_leaves(scalar, value, &mut parts)?;
    }
    Ok(parts)
}

fn add_leaves(scalar: Scalar, value: &Value, parts: &mut Parts) -> Result<(), AllocError>
    ensures { OnOk result (parts.new ≡ parts.old ++ map (converted_part scalar) (leaves_of value.now)) }
{
    match value {
        Value::One(leaf) => parts.push(Value::One(bits::converted(scalar, *leaf))),
        Value::Many(others) => add_all(scalar, others.as_slice(), parts),
    }
}

fn add_all(scalar: Scalar, values: &[Value], parts: &mut Parts) -> Result<(), AllocError>
    ensures { OnOk result (parts.new ≡ parts.old ++ map (λ v. converted_part scalar (own_leaf v)) values.now) }
{
    for value in values {
        parts.push(Value::One(bits::converted(scalar, own_leaf(value))))?;
    }
    Ok(())
}
