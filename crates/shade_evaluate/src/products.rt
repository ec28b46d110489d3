//! The exact sum of the products of two vectors.

ghost use Rattle.std.specs.Prelude.{◌≡◌, ◌^◌, ◌-◌, pos, ◌*ℤ◌, ◌+ℤ◌, ◌<◌, ◌≤◌, unsigned_abs, int_div, int_rem};
ghost use Rattle.shade_values.specs.declared.types.Scalar.TheVariants as scalar;
ghost use Rattle.shade_evaluate.specs.Fits.{has_number};
ghost use Rattle.shade_evaluate.specs.Misuse.{exact_dot};

use crate::parts::{lane, part_count};
use shade_values::Value;

/// 2^64.
const LIMIT: i128 = 18_446_744_073_709_551_616;

/// Whether AbstractInt has a number.
pub(crate) fn is_wide(number: i128) -> bool
    ensures { result ≡ has_number scalar.Abstract number }
{
    -9_223_372_036_854_775_808 <= number && number <= 9_223_372_036_854_775_807
}

/// A sum of products: `high` times 2^64 and `low`, which is less than 2^64 away from 0.
#[derive(Clone, Copy)]
struct Wide {
    high: i128,
    low: i128,
}

/// Whether AbstractInt has the exact sum of the products.
pub(crate) fn dot_fits(left: &Value, right: &Value) -> bool
    ensures { result ≡ has_number scalar.Abstract (exact_dot left.now right.now) }
{
    let mut sum = Wide { high: 0, low: 0 };
    for k in 0..part_count(left) {
        sum = added(sum, product(lane(k, left).number, lane(k, right).number));
    }
    is_wide_sum(sum)
}

/// The product of two numbers.
pub(crate) fn product(left: i64, right: i64) -> i128
    ensures value { result ≡ left *ℤ right }
    ensures small { unsigned_abs result ≤ 2 ^ 126 }
{
    i128::from(left) * i128::from(right)
}

/// A sum with one more product.
fn added(sum: Wide, product: i128) -> Wide
    requires low { unsigned_abs sum.low < 2 ^ 64 }
    requires high { unsigned_abs sum.high ≤ 2 ^ 127 - 2 ^ 64 }
    requires small { unsigned_abs product ≤ 2 ^ 126 }
    ensures high { result.high ≡ sum.high +ℤ int_div (sum.low +ℤ product) (pos (2 ^ 64)) }
    ensures low { result.low ≡ int_rem (sum.low +ℤ product) (pos (2 ^ 64)) }
{
    Wide {
        high: sum.high + carried(sum.low, product),
        low: (sum.low + product) % LIMIT,
    }
}

/// What goes from `low` and one more product into `high`.
fn carried(low: i128, product: i128) -> i128
    requires low { unsigned_abs low < 2 ^ 64 }
    requires small { unsigned_abs product ≤ 2 ^ 126 }
    ensures value { result ≡ int_div (low +ℤ product) (pos (2 ^ 64)) }
    ensures small { unsigned_abs result < 2 ^ 63 }
{
    (low + product) / LIMIT
}

/// Whether AbstractInt has a sum.
fn is_wide_sum(sum: Wide) -> bool
    requires { unsigned_abs sum.low < 2 ^ 64 }
    ensures { result ≡ has_number scalar.Abstract (sum.high *ℤ pos (2 ^ 64) +ℤ sum.low) }
{
    if sum.high < -1 || 1 < sum.high {
        return false;
    }
    is_wide(near(sum))
}

/// The number that a small sum is.
fn near(sum: Wide) -> i128
    requires low { unsigned_abs sum.low < 2 ^ 64 }
    requires high { unsigned_abs sum.high ≤ 1 }
    ensures { result ≡ sum.high *ℤ pos (2 ^ 64) +ℤ sum.low }
{
    sum.high * LIMIT + sum.low
}
