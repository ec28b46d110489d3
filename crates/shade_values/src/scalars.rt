//! The operations on scalars.

ghost use Rattle.std.specs.Prelude.{◌≡◌};
ghost use Rattle.shade_values.specs.Numbers.{kept};
ghost use Rattle.shade_values.specs.Operations.{binary, quotient, remainder};

use crate::numbers::{amount, kept, truth};
use crate::op::Op;
use crate::types::Scalar;
use crate::value::Leaf;

/// The operation on two scalars. Takes no memory.
pub fn leaf(op: Op, left: Leaf, right: Leaf) -> Leaf
    ensures { result ≡ binary op left right }
{
    let scalar = left.scalar;
    let a = left.number;
    let b = right.number;
    match op {
        Op::Add => kept(scalar, a.wrapping_add(b)),
        Op::Subtract => kept(scalar, a.wrapping_sub(b)),
        Op::Multiply => kept(scalar, a.wrapping_mul(b)),
        Op::Divide => quotient(left, b),
        Op::Remainder => remainder(left, b),
        Op::And => kept(scalar, a & b),
        Op::Or => kept(scalar, a | b),
        Op::Xor => kept(scalar, a ^ b),
        Op::ShiftLeft => kept(scalar, a << amount(scalar, b)),
        Op::ShiftRight => kept(scalar, a >> amount(scalar, b)),
        Op::Min => kept(scalar, a.min(b)),
        Op::Max => kept(scalar, a.max(b)),
        Op::Equal => truth(a == b),
        Op::NotEqual => truth(a != b),
        Op::Less => truth(a < b),
        Op::LessEqual => truth(a <= b),
        Op::Greater => truth(a > b),
        Op::GreaterEqual => truth(a >= b),
        Op::LogicalAnd => truth(a != 0 && b != 0),
        Op::LogicalOr => truth(a != 0 || b != 0),
        _ => left,
    }
}

fn quotient(left: Leaf, right: i64) -> Leaf
    ensures { result ≡ kept left (quotient left.number right) }
{
    if right == 0 {
        return kept(left.scalar, left.number);
    }
    kept(left.scalar, left.number.wrapping_div(right))
}

fn remainder(left: Leaf, right: i64) -> Leaf
    ensures { result ≡ kept left (remainder left.number right) }
{
    if right == 0 {
        return kept(left.scalar, 0);
    }
    kept(left.scalar, left.number.wrapping_rem(right))
}
