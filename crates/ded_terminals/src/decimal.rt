//! Decimals: their digits without the point, and the power of ten below them.
ghost use Rattle.std.specs.Prelude.{◌≡◌, ◌<◌, ◌^◌, length};
ghost use Rattle.ded_terminals.specs.Literals.{capped};
ghost use Rattle.ded_terminals.specs.Symbols.{before_point, behind_point, trimmed, decimal_number, decimal_power};

use crate::item::{value_behind, value_of};
use ded_model::limits;

/// The digits before the point of a decimal.
fn before_point(text: &[u8]) -> &[u8]
    ensures { result.now ≡ before_point text.now }
{
    for (i, byte) in text.iter().enumerate() {
        if *byte == b'.' {
            return &text[..i];
        }
    }
    text
}

/// The digits behind the point of a decimal.
fn behind_point(text: &[u8]) -> &[u8]
    ensures { result.now ≡ behind_point text.now }
{
    for (i, byte) in text.iter().enumerate() {
        if *byte == b'.' {
            return &text[i + 1..];
        }
    }
    &[]
}

/// The digits without the zeros at the end.
fn trimmed(digits: &[u8]) -> &[u8]
    ensures { result.now ≡ trimmed digits.now }
{
    let mut count = digits.len();
    while count > 0 && digits[count - 1] == b'0' {
        count -= 1;
    }
    &digits[..count]
}

/// The number with as many times one digit behind it as the slice is long: 0 in the place of each, or 2^63 where that
/// is above it.
fn power_of_ten(digits: &[u8]) -> u64
    ensures value { result ≡ capped (10 ^ length digits.now) }
    ensures positive { 0 < result }
{
    let mut power = 1u64;
    for _ in digits {
        power = power.saturating_mul(10).min(limits::TOO_GREAT);
    }
    power
}

/// The number that the digits of a decimal stand for without the point and without zeros at the end, and the power of
/// ten below it; 2^63 in the place of each that is above it.
pub fn decimal_of(text: &[u8]) -> (u64, u64)
    ensures number { result.0 ≡ capped (decimal_number text.now) }
    ensures power { result.1 ≡ capped (decimal_power text.now) }
    ensures positive { 0 < result.1 }
{
    let fraction = trimmed(behind_point(text));
    let whole = value_of(before_point(text));
    (value_behind(whole, fraction), power_of_ten(fraction))
}
