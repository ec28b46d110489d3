//! The operations on values.

use crate::types::{Scalar, TypeId};

/// An operation: one for each operator and built-in function that makes a value from values, and the atomic ones.
#[derive(Clone, Copy, Debug, PartialEq, Eq)]
pub enum Op {
    Add,
    Subtract,
    Multiply,
    Divide,
    Remainder,
    Negate,
    Complement,
    And,
    Or,
    Xor,
    ShiftLeft,
    ShiftRight,
    Equal,
    NotEqual,
    Less,
    LessEqual,
    Greater,
    GreaterEqual,
    Not,
    LogicalAnd,
    LogicalOr,
    /// `i32`, `u32` or `bool` of a scalar.
    Convert(Scalar),
    /// `vecN`: the number of parts, and what each is.
    Vector(u8, Scalar),
    /// An array or a struct of one value for each part.
    Make(TypeId),
    /// `bitcast`: the number of parts, 1 for a scalar, and what each is.
    Bitcast(u8, Scalar),
    All,
    Any,
    Select,
    Abs,
    Sign,
    Min,
    Max,
    Clamp,
    Dot,
    CountOneBits,
    CountLeadingZeros,
    CountTrailingZeros,
    ReverseBits,
    FirstLeadingBit,
    FirstTrailingBit,
    ExtractBits,
    InsertBits,
    /// The part with this number, of a struct or a vector.
    Member(u32),
    /// The part that an index names, of an array or a vector.
    Index,
    /// How many parts of a vector are taken, from 2 to 4, and which.
    Swizzle(u8, [u8; 4]),
    AtomicLoad,
    AtomicStore,
    AtomicAdd,
    AtomicSub,
    AtomicMax,
    AtomicMin,
    AtomicAnd,
    AtomicOr,
    AtomicXor,
    AtomicExchange,
    AtomicCompareExchangeWeak,
}
