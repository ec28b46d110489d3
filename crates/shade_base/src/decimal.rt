//! Numbers as digits write them.
ghost use Rattle.std.specs.Prelude.{◌<◌, ◌^◌, ◌+◌, ◌-◌, ◌*◌, ◌≡◌, ◌↔◌, IsTrue, length, slice_index};
ghost use Rattle.std.specs.Option.{SomeIff};
ghost use Rattle.std.specs.Char.{is_ascii_digit};
ghost use Rattle.shade_base.specs.Decimals.{IsValueOf};

/// Reads the number that digits write without a leading zero: `None` exactly where the text is that of no number below 2^32.
/// Takes no memory.
pub fn decimal_value(text: &[u8]) -> Option<u32>
    ensures { IsValueOf text.now result }
{
    if text.is_empty() {
        return None;
    }
    if has_leading_zero(text) {
        return None;
    }
    let mut value = 0;
    'digits: for byte in text {
        if !byte.is_ascii_digit() {
            return None;
        }
        let Some(longer) = with_digit(value, *byte) else {
            return None;
        };
        value = longer;
    }
    Some(value)
}

fn has_leading_zero(text: &[u8]) -> bool
    ensures { IsTrue result ↔ ((1 < length text.now) × (slice_index text.now 0 ≡ 48)) }
{
    text.len() > 1 && text[0] == b'0'
}

/// One more digit behind a number, if it is then below 2^32.
fn with_digit(value: u32, digit: u8) -> Option<u32>
    requires { IsTrue (is_ascii_digit digit) }
    ensures { SomeIff result (value * 10 + (digit - 48) < 2 ^ 32) (value * 10 + (digit - 48)) }
{
    value.checked_mul(10)?.checked_add(u32::from(digit - b'0'))
}
