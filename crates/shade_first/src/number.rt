//! Numbers as they are written.

ghost use Rattle.std.specs.Prelude.{◌≡◌, ◌^◌, ◌<◌, ◌≤◌, ◌++◌, ◌↔◌, ℕ, IsTrue, MatchOption, codes};
ghost use Rattle.std.specs.Fmt.{decimal};

use shade_base::decimal_value;

/// The number that digits and then `u` write, without a leading zero, if it is below 2^32.
pub fn unsigned_value(text: &[u8]) -> Option<u32>
    ensures { MatchOption result ((n : ℕ) → n < 2 ^ 32 → ¬ (text.now ≡ decimal n ++ codes "u")) (λ n. text.now ≡ decimal n ++ codes "u") }
{
    let [digits @ .., b'u'] = text else {
        return None;
    };
    decimal_value(digits)
}

/// A number of lanes, from 1 to 256, that digits write without a leading zero.
pub fn lane_count(text: &[u8]) -> Option<u32>
    ensures { MatchOption result ((n : ℕ) → 1 ≤ n → n ≤ 256 → ¬ (text.now ≡ decimal n)) (λ n. (text.now ≡ decimal n) × (1 ≤ n) × (n ≤ 256)) }
{
    match decimal_value(text) {
        Some(count) if is_lane_count(count) => Some(count),
        _ => None,
    }
}

fn is_lane_count(count: u32) -> bool
    ensures { IsTrue result ↔ ((1 ≤ count) × (count ≤ 256)) }
{
    (1..=256).contains(&count)
}
