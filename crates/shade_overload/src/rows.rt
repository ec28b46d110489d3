//! Which row each operator and built-in function has.

ghost use Rattle.std.specs.Prelude.{◌≡◌};
ghost use Rattle.shade_overload.specs.Patterns.{operator, function, atomic};
ghost use Rattle.shade_overload.specs.Rows.{first_choice, written_first};

use crate::builtin::Builtin;
use crate::memory::Atomics;
use crate::pattern::{Kind, Pattern};
use shade_values::{Op, Scalar, ShadeType};

/// The row of an operator.
pub(crate) fn operator(builtin: Builtin) -> Option<(Op, Pattern)>
    ensures { result ≡ operator builtin }
{
    let row = match builtin {
        Builtin::Add => (Op::Add, Pattern::Arithmetic),
        Builtin::Subtract => (Op::Subtract, Pattern::Arithmetic),
        Builtin::Multiply => (Op::Multiply, Pattern::Arithmetic),
        Builtin::Divide => (Op::Divide, Pattern::Arithmetic),
        Builtin::Remainder => (Op::Remainder, Pattern::Arithmetic),
        Builtin::Negate => (Op::Negate, Pattern::Unary(Kind::Signed)),
        Builtin::Complement => (Op::Complement, Pattern::Unary(Kind::Integer)),
        Builtin::And => (Op::And, Pattern::Binary(Kind::Any)),
        Builtin::Or => (Op::Or, Pattern::Binary(Kind::Any)),
        Builtin::Xor => (Op::Xor, Pattern::Binary(Kind::Integer)),
        Builtin::ShiftLeft => (Op::ShiftLeft, Pattern::Shifted),
        Builtin::ShiftRight => (Op::ShiftRight, Pattern::Shifted),
        Builtin::Equal => (Op::Equal, Pattern::Comparison(Kind::Any)),
        Builtin::NotEqual => (Op::NotEqual, Pattern::Comparison(Kind::Any)),
        Builtin::Less => (Op::Less, Pattern::Comparison(Kind::Integer)),
        Builtin::LessEqual => (Op::LessEqual, Pattern::Comparison(Kind::Integer)),
        Builtin::Greater => (Op::Greater, Pattern::Comparison(Kind::Integer)),
        Builtin::GreaterEqual => (Op::GreaterEqual, Pattern::Comparison(Kind::Integer)),
        Builtin::Not => (Op::Not, Pattern::Unary(Kind::Bool)),
        Builtin::LogicalAnd => (Op::LogicalAnd, Pattern::Truths),
        Builtin::LogicalOr => (Op::LogicalOr, Pattern::Truths),
        _ => return None,
    };
    Some(row)
}

/// The row of a function of scalars and vectors.
pub(crate) fn function(builtin: Builtin) -> Option<(Op, Pattern)>
    ensures { result ≡ function builtin }
{
    let row = match builtin {
        Builtin::I32 => (
            Op::Convert(Scalar::I32),
            Pattern::Conversion(None, Scalar::I32),
        ),
        Builtin::U32 => (
            Op::Convert(Scalar::U32),
            Pattern::Conversion(None, Scalar::U32),
        ),
        Builtin::Bool => (
            Op::Convert(Scalar::Bool),
            Pattern::Conversion(None, Scalar::Bool),
        ),
        Builtin::All => (Op::All, Pattern::Reduction),
        Builtin::Any => (Op::Any, Pattern::Reduction),
        Builtin::Select => (Op::Select, Pattern::Selection),
        Builtin::Abs => (Op::Abs, Pattern::Unary(Kind::Integer)),
        Builtin::Sign => (Op::Sign, Pattern::Unary(Kind::Signed)),
        Builtin::Min => (Op::Min, Pattern::Binary(Kind::Integer)),
        Builtin::Max => (Op::Max, Pattern::Binary(Kind::Integer)),
        Builtin::Clamp => (Op::Clamp, Pattern::Ternary),
        Builtin::Dot => (Op::Dot, Pattern::Product),
        Builtin::CountOneBits => (Op::CountOneBits, Pattern::Unary(Kind::Concrete)),
        Builtin::CountLeadingZeros => (Op::CountLeadingZeros, Pattern::Unary(Kind::Concrete)),
        Builtin::CountTrailingZeros => (Op::CountTrailingZeros, Pattern::Unary(Kind::Concrete)),
        Builtin::ReverseBits => (Op::ReverseBits, Pattern::Unary(Kind::Concrete)),
        Builtin::FirstLeadingBit => (Op::FirstLeadingBit, Pattern::Unary(Kind::Concrete)),
        Builtin::FirstTrailingBit => (Op::FirstTrailingBit, Pattern::Unary(Kind::Concrete)),
        Builtin::ExtractBits => (Op::ExtractBits, Pattern::Extraction),
        Builtin::InsertBits => (Op::InsertBits, Pattern::Insertion),
        _ => return None,
    };
    Some(row)
}

/// The row of an atomic function.
pub(crate) fn atomic(builtin: Builtin) -> Option<(Op, Atomics)>
    ensures { result ≡ atomic builtin }
{
    let row = match builtin {
        Builtin::AtomicLoad => (Op::AtomicLoad, Atomics::Load),
        Builtin::AtomicStore => (Op::AtomicStore, Atomics::Store),
        Builtin::AtomicAdd => (Op::AtomicAdd, Atomics::Update),
        Builtin::AtomicSub => (Op::AtomicSub, Atomics::Update),
        Builtin::AtomicMax => (Op::AtomicMax, Atomics::Update),
        Builtin::AtomicMin => (Op::AtomicMin, Atomics::Update),
        Builtin::AtomicAnd => (Op::AtomicAnd, Atomics::Update),
        Builtin::AtomicOr => (Op::AtomicOr, Atomics::Update),
        Builtin::AtomicXor => (Op::AtomicXor, Atomics::Update),
        Builtin::AtomicExchange => (Op::AtomicExchange, Atomics::Update),
        Builtin::AtomicCompareExchangeWeak => (Op::AtomicCompareExchangeWeak, Atomics::Compare),
        _ => return None,
    };
    Some(row)
}

/// What AbstractInt rather becomes under a written type.
pub(crate) fn written_first(written: Option<ShadeType>) -> Scalar
    ensures { result ≡ written_first written }
{
    match written {
        Some(ShadeType::Plain(Scalar::U32)) => Scalar::U32,
        _ => Scalar::I32,
    }
}

/// What AbstractInt rather becomes.
pub(crate) fn first_choice(builtin: Builtin) -> Scalar
    ensures { result ≡ first_choice builtin }
{
    match builtin {
        Builtin::U32 => Scalar::U32,
        Builtin::Vec2(written) | Builtin::Vec3(written) | Builtin::Vec4(written) => {
            written_first(written)
        }
        _ => Scalar::I32,
    }
}
