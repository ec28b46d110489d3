//! Numbers in the range of a scalar.

ghost use Rattle.std.specs.Prelude.{◌≡◌, ◌<◌, ◌≤◌};
ghost use Rattle.shade_values.specs.Numbers.{word, wrapped, width, modulo, kept, truth, nearest};

use crate::types::Scalar;
use crate::value::Leaf;

/// The 32 bits of a number. Takes no memory.
pub fn word(number: i64) -> u32
    ensures { result ≡ word number }
{
    number.rem_euclid(0x1_0000_0000) as u32
}

/// The number in the scalar's range.
fn wrapped(scalar: Scalar, number: i64) -> i64
    ensures { result ≡ wrapped scalar number }
{
    match scalar {
        Scalar::Bool => number.rem_euclid(2),
        Scalar::I32 => i64::from(word(number).cast_signed()),
        Scalar::U32 => i64::from(word(number)),
        Scalar::Abstract => number,
    }
}

/// A leaf of this scalar, whose number is taken into its range. Takes no memory.
pub fn kept(scalar: Scalar, number: i64) -> Leaf
    ensures scalar { result.scalar ≡ scalar }
    ensures number { result.number ≡ wrapped scalar number }
{
    Leaf {
        scalar,
        number: wrapped(scalar, number),
    }
}

/// A leaf of `bool`. Takes no memory.
pub fn truth(flag: bool) -> Leaf
    ensures { result ≡ truth flag }
{
    Leaf {
        scalar: Scalar::Bool,
        number: i64::from(flag),
    }
}

/// How far a number of this scalar is shifted.
pub(crate) fn amount(scalar: Scalar, number: i64) -> u32
    ensures value { result ≡ modulo (width scalar) number }
    ensures small { result < 64 }
{
    match scalar {
        Scalar::Abstract => number.rem_euclid(64) as u32,
        Scalar::Bool | Scalar::I32 | Scalar::U32 => number.rem_euclid(32) as u32,
    }
}

/// The index below `length` that is nearest to a number; 0 where there is none.
pub(crate) fn nearest(number: i64, length: usize) -> usize
    ensures { result ≡ nearest number length }
{
    if number < 0 {
        return 0;
    }
    (number as usize).min(length.saturating_sub(1))
}

/// The index below `length` that is nearest to `index`. Takes no memory.
pub fn clamp(index: Leaf, length: u32) -> u32
    requires { 0 < length }
    ensures { result ≡ nearest index.number length }
{
    nearest(index.number, length as usize) as u32
}
