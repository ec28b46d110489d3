//! The operations on constants that are faults.

ghost use Rattle.std.specs.Prelude.{◌≡◌, ◌<◌, ◌^◌, ◌*ℤ◌, pos, length};
ghost use Rattle.shade_values.specs.Numbers.{width};
ghost use Rattle.shade_values.specs.Operations.{amount};
ghost use Rattle.shade_values.specs.Parts.{own_leaf, parts_of};
ghost use Rattle.shade_evaluate.specs.Misuse.{told_if, overflow, least, quotient_misuse, is_too_far, shift_misuse, misuse_two, misuse_one, misuse_three, misuse_at, misuse_by_parts, dot_misuse, named_part, index_misuse, field_misuse, extract_misuse, insert_misuse, misuse_of};

use crate::conversions::is_abstract;
use crate::fault::ConstFault;
use crate::parts::{lane, lanes, own_leaf, part_count};
use crate::products::{dot_fits, is_wide, product};
use shade_base::Place;
use shade_values::{Leaf, Op, Scalar, Value};

/// Gives the fault of an operation on these operands, whose place is `at`: `None` where they have a value. Takes no memory.
pub fn misuse(op: Op, args: &[Value], at: Place) -> Option<ConstFault>
    ensures { result ≡ misuse_of op args.now at }
{
    match op {
        Op::Add | Op::Subtract | Op::Multiply | Op::Divide | Op::Remainder => {
            misuse_by_parts(op, args, at)
        }
        Op::ShiftLeft | Op::ShiftRight => misuse_by_parts(op, args, at),
        Op::Negate | Op::Abs | Op::Clamp => misuse_by_parts(op, args, at),
        Op::Dot => dot_misuse(args, at),
        Op::Index => index_misuse(args, at),
        Op::ExtractBits => extract_misuse(args, at),
        Op::InsertBits => insert_misuse(args, at),
        _ => None,
    }
}

fn told_if(told: bool, fault: ConstFault) -> Option<ConstFault>
    ensures { result ≡ told_if told fault }
{
    if told { Some(fault) } else { None }
}

/// The fault of a result of AbstractInt that leaves 64 bits.
fn overflow(scalar: Scalar, exact: i128, at: Place) -> Option<ConstFault>
    ensures { result ≡ overflow scalar exact at }
{
    told_if(
        is_abstract(scalar) && !is_wide(exact),
        ConstFault::Overflow(at),
    )
}

/// The first fault of the parts.
fn misuse_by_parts(op: Op, args: &[Value], at: Place) -> Option<ConstFault>
    ensures { result ≡ misuse_by_parts op args.now at }
{
    for k in 0..lanes(args).unwrap_or(1) {
        if let Some(fault) = misuse_at(op, args, at, k) {
            return Some(fault);
        }
    }
    None
}

/// The fault of part `k`.
fn misuse_at(op: Op, args: &[Value], at: Place, k: usize) -> Option<ConstFault>
    ensures { result ≡ misuse_at op args.now at k }
{
    match args {
        [a] => misuse_one(op, lane(k, a), at),
        [a, b] => misuse_two(op, lane(k, a), lane(k, b), at),
        [a, b, c] => misuse_three(op, lane(k, a), lane(k, b), lane(k, c), at),
        _ => None,
    }
}

fn misuse_one(op: Op, leaf: Leaf, at: Place) -> Option<ConstFault>
    ensures { result ≡ misuse_one op leaf at }
{
    match op {
        Op::Negate => overflow(leaf.scalar, -i128::from(leaf.number), at),
        Op::Abs => overflow(leaf.scalar, i128::from(leaf.number.unsigned_abs()), at),
        _ => None,
    }
}

fn misuse_two(op: Op, left: Leaf, right: Leaf, at: Place) -> Option<ConstFault>
    ensures { result ≡ misuse_two op left right at }
{
    let a = i128::from(left.number);
    let b = i128::from(right.number);
    match op {
        Op::Add => overflow(left.scalar, a + b, at),
        Op::Subtract => overflow(left.scalar, a - b, at),
        Op::Multiply => overflow(left.scalar, product(left.number, right.number), at),
        Op::Divide => quotient_misuse(left, right, at),
        Op::Remainder => told_if(right.number == 0, ConstFault::ZeroDivisor(at)),
        Op::ShiftLeft => shift_misuse(left, right, at),
        Op::ShiftRight => told_if(is_too_far(left, right), ConstFault::ShiftTooLarge(at)),
        _ => None,
    }
}

fn misuse_three(op: Op, leaf: Leaf, low: Leaf, high: Leaf, at: Place) -> Option<ConstFault>
    ensures { result ≡ misuse_three op leaf low high at }
{
    match op {
        Op::Clamp => told_if(high.number < low.number, ConstFault::BadRange(at)),
        _ => None,
    }
}

/// The least number of a scalar.
fn least(scalar: Scalar) -> i64
    ensures { result ≡ least scalar }
{
    match scalar {
        Scalar::Bool | Scalar::U32 => 0,
        Scalar::I32 => -2_147_483_648,
        Scalar::Abstract => -9_223_372_036_854_775_808,
    }
}

fn quotient_misuse(left: Leaf, right: Leaf, at: Place) -> Option<ConstFault>
    ensures { result ≡ quotient_misuse left right at }
{
    if right.number == 0 {
        return Some(ConstFault::ZeroDivisor(at));
    }
    told_if(
        left.number == least(left.scalar) && right.number == -1,
        ConstFault::Overflow(at),
    )
}

/// How many bits a number has that is shifted.
fn width(scalar: Scalar) -> i64
    ensures value { result ≡ pos (width scalar) }
{
    match scalar {
        Scalar::Abstract => 64,
        Scalar::Bool | Scalar::I32 | Scalar::U32 => 32,
    }
}

/// Whether the amount of a shift is not below the number of bits.
fn is_too_far(left: Leaf, right: Leaf) -> bool
    ensures { result ≡ is_too_far left right }
{
    width(left.scalar) <= right.number
}

/// How far a number of this scalar is shifted.
fn amount(left: Leaf, right: Leaf) -> u32
    ensures value { result ≡ amount left right }
    ensures small { result < 64 }
{
    match left.scalar {
        Scalar::Abstract => right.number.rem_euclid(64) as u32,
        Scalar::Bool | Scalar::I32 | Scalar::U32 => right.number.rem_euclid(32) as u32,
    }
}

/// A number times a power of two.
fn shifted(number: i64, bits: u32) -> i128
    requires { bits < 64 }
    ensures { result ≡ number *ℤ pos (2 ^ bits) }
{
    let power: u64 = 1 << bits;
    i128::from(number) * i128::from(power)
}

fn shift_misuse(left: Leaf, right: Leaf, at: Place) -> Option<ConstFault>
    ensures { result ≡ shift_misuse left right at }
{
    if is_too_far(left, right) {
        return Some(ConstFault::ShiftTooLarge(at));
    }
    overflow(left.scalar, shifted(left.number, amount(left, right)), at)
}

fn dot_misuse(args: &[Value], at: Place) -> Option<ConstFault>
    ensures { result ≡ dot_misuse args.now at }
{
    let [left, right] = args else {
        return None;
    };
    told_if(
        is_abstract(lane(0, left).scalar) && !dot_fits(left, right),
        ConstFault::Overflow(at),
    )
}

/// Gives the number of the part that an index names, if there is such a part. Takes no memory.
pub fn named_part(whole: &Value, index: &Value) -> Option<usize>
    ensures { result ≡ named_part whole.now index.now }
{
    let number = own_leaf(index).number;
    if 0 <= number && (number as usize) < part_count(whole) {
        return Some(number as usize);
    }
    None
}

fn index_misuse(args: &[Value], at: Place) -> Option<ConstFault>
    ensures { result ≡ index_misuse args.now at }
{
    let [whole, index] = args else {
        return None;
    };
    told_if(
        named_part(whole, index).is_none(),
        ConstFault::IndexOutside(at),
    )
}

fn field_misuse(offset: &Value, count: &Value, at: Place) -> Option<ConstFault>
    ensures { result ≡ field_misuse offset.now count.now at }
{
    let end = i128::from(own_leaf(offset).number) + i128::from(own_leaf(count).number);
    told_if(32 < end, ConstFault::BadRange(at))
}

fn extract_misuse(args: &[Value], at: Place) -> Option<ConstFault>
    ensures { result ≡ extract_misuse args.now at }
{
    match args {
        [_, offset, count] => field_misuse(offset, count, at),
        _ => None,
    }
}

fn insert_misuse(args: &[Value], at: Place) -> Option<ConstFault>
    ensures { result ≡ insert_misuse args.now at }
{
    match args {
        [_, _, offset, count] => field_misuse(offset, count, at),
        _ => None,
    }
}
