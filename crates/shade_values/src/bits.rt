//! The operations on one scalar, and those on the bits of several.

ghost use Rattle.std.specs.Prelude.{◌≡◌, ◌<◌, ◌≤◌, ◌^◌, ◌%◌, ◌/◌, ◌*◌, ◌+◌, pos};
ghost use Rattle.shade_values.specs.Numbers.{kept, word};
ghost use Rattle.shade_values.specs.Operations.{converted, highest_bit, lowest_bit, sign_flipped, unary, ternary, quaternary, field_offset, field_count, field, extracted, inserted};

use crate::numbers::{kept, truth, word};
use crate::op::Op;
use crate::types::Scalar;
use crate::value::Leaf;

/// The operation on one scalar. Takes no memory.
pub fn unary(op: Op, leaf: Leaf) -> Leaf
    ensures { result ≡ unary op leaf }
{
    let scalar = leaf.scalar;
    let number = leaf.number;
    match op {
        Op::Negate => kept(scalar, number.wrapping_neg()),
        Op::Complement => kept(scalar, !number),
        Op::Not => truth(number == 0),
        Op::Convert(to) | Op::Bitcast(_, to) => converted(to, leaf),
        Op::Abs => kept(scalar, number.wrapping_abs()),
        Op::Sign => kept(scalar, number.signum()),
        Op::CountOneBits => kept(scalar, i64::from(word(number).count_ones())),
        Op::CountLeadingZeros => kept(scalar, i64::from(word(number).leading_zeros())),
        Op::CountTrailingZeros => kept(scalar, i64::from(word(number).trailing_zeros())),
        Op::ReverseBits => kept(scalar, i64::from(word(number).reverse_bits())),
        Op::FirstLeadingBit => kept(scalar, highest_bit(sign_flipped(number))),
        Op::FirstTrailingBit => kept(scalar, lowest_bit(word(number))),
        _ => leaf,
    }
}

/// The leaf in another scalar.
pub(crate) fn converted(to: Scalar, leaf: Leaf) -> Leaf
    ensures { result ≡ converted to leaf }
{
    match to {
        Scalar::Bool => truth(word(leaf.number) != 0),
        Scalar::I32 | Scalar::U32 | Scalar::Abstract => kept(to, leaf.number),
    }
}

fn sign_flipped(number: i64) -> u32
    ensures { result ≡ sign_flipped number }
{
    if number < 0 {
        !word(number)
    } else {
        word(number)
    }
}

fn highest_bit(bits: u32) -> i64
    ensures { result ≡ highest_bit bits }
{
    if bits == 0 {
        return -1;
    }
    31 - i64::from(bits.leading_zeros())
}

fn lowest_bit(bits: u32) -> i64
    ensures { result ≡ lowest_bit bits }
{
    if bits == 0 {
        return -1;
    }
    i64::from(bits.trailing_zeros())
}

/// The operation on three scalars. Takes no memory.
pub fn ternary(op: Op, first: Leaf, second: Leaf, third: Leaf) -> Leaf
    ensures { result ≡ ternary op first second third }
{
    match op {
        Op::Select if third.number == 0 => first,
        Op::Select => second,
        Op::Clamp => kept(
            first.scalar,
            first.number.max(second.number).min(third.number),
        ),
        Op::ExtractBits => extracted(first, field_offset(second), field_count(second, third)),
        _ => first,
    }
}

/// The operation on four scalars. Takes no memory.
pub fn quaternary(op: Op, first: Leaf, second: Leaf, third: Leaf, fourth: Leaf) -> Leaf
    ensures { result ≡ quaternary op first second third fourth }
{
    match op {
        Op::InsertBits => inserted(
            first,
            second,
            field_offset(third),
            field_count(third, fourth),
        ),
        _ => first,
    }
}

fn field_offset(offset: Leaf) -> u32
    ensures value { result ≡ field_offset offset }
    ensures small { result ≤ 32 }
{
    word(offset.number).min(32)
}

fn field_count(offset: Leaf, count: Leaf) -> u32
    ensures value { result ≡ field_count offset count }
    ensures small { field_offset offset + result ≤ 32 }
{
    word(count.number).min(32 - field_offset(offset))
}

/// 2 to the power of a number of bits.
fn power(bits: u32) -> u64
    requires { bits ≤ 32 }
    ensures value { result ≡ 2 ^ bits }
    ensures small { result ≤ 2 ^ 32 }
{
    1 << bits
}

/// The bits of `count` places from `offset` on.
fn extracted(leaf: Leaf, offset: u32, count: u32) -> Leaf
    requires { offset + count ≤ 32 }
    ensures { result ≡ kept leaf (extracted leaf offset count) }
{
    let bits = (u64::from(word(leaf.number)) >> offset) % power(count);
    kept(leaf.scalar, field(leaf.scalar, count, bits))
}

/// A field of `count` bits as a number, of `i32` with its sign.
fn field(scalar: Scalar, count: u32, bits: u64) -> i64
    requires small { count ≤ 32 }
    requires below { bits < 2 ^ count }
    ensures { result ≡ field scalar count bits }
{
    let size = power(count);
    if scalar == Scalar::I32 && size <= 2 * bits {
        return bits as i64 - size as i64;
    }
    bits as i64
}

/// The leaf with the lowest bits of `new` in `count` places from `offset` on.
fn inserted(leaf: Leaf, new: Leaf, offset: u32, count: u32) -> Leaf
    requires { offset + count ≤ 32 }
    ensures { result ≡ kept leaf (pos (inserted (word leaf.number) (word new.number) offset count)) }
{
    let bits = u64::from(word(leaf.number));
    let below = bits % power(offset);
    let within = placed(u64::from(word(new.number)) % power(count), count, offset);
    let size = power(offset + count);
    let above = bits / size * size;
    kept(leaf.scalar, (below + within + above) as i64)
}

/// A field's bits in their places.
fn placed(bits: u64, count: u32, offset: u32) -> u64
    requires small { offset + count ≤ 32 }
    requires below { bits < 2 ^ count }
    ensures value { result ≡ bits * 2 ^ offset }
    ensures small { result < 2 ^ 32 }
{
    bits * power(offset)
}
