//! Windows that are read from texts.
ghost use Rattle.std.specs.Prelude.{◌≡◌, ◌≤◌, ◌<◌, ◌^◌, ◌+◌, ◌-◌, ◌*◌, true, Some, None, IfSome, IfNone, MatchOption};
ghost use Rattle.ded_axes.specs.WindowReading.{behind, decimal_at, digits_at, frame_of, frame_spelled, in_units};
ghost use Rattle.ded_axes.specs.WindowReading.{is_digit, item_at, magnitude_at, most_places, some_digits};
ghost use Rattle.ded_axes.specs.WindowReading.{whole_decimal};
ghost use Rattle.ded_num.specs.Length.{IsWithin};
ghost use Rattle.ded_polygon.specs.Windows.{Frame, IsFrame};

use crate::power::power;
use ded_polygon::PlaneWindow;

/// The most digits before a point.
const WHOLE: u32 = 18;

/// The most digits behind it.
const PLACES: u32 = 9;

/// The window that a text spells: the left end, the lower, the right and the upper one, as decimals with commas
/// between. Each is 1 to 18 digits, maybe behind `-`, and maybe a point and 1 to 9 digits more. None where the text
/// spells no window.
pub fn window_of(text: &[u8]) -> Option<PlaneWindow>
    ensures { MatchOption result ((w : Frame) → IsFrame w → frame_spelled text.now ≡ Some w
        → ⊥) (λ w. frame_spelled text.now ≡ Some w) }
{
    let (left, left_places, rest) = item(text)?;
    let (bottom, bottom_places, rest) = item(rest)?;
    let (right, right_places, rest) = item(rest)?;
    let (top, top_places) = whole_decimal(rest)?;
    window_from(
        (left, left_places),
        (bottom, bottom_places),
        (right, right_places),
        (top, top_places),
    )
}

/// The window of these four decimals.
fn window_from(
    left: (i128, u32),
    bottom: (i128, u32),
    right: (i128, u32),
    top: (i128, u32),
) -> Option<PlaneWindow>
    requires left { IsWithin 90 left.0 × (left.1 ≤ 9) }
    requires bottom { IsWithin 90 bottom.0 × (bottom.1 ≤ 9) }
    requires right { IsWithin 90 right.0 × (right.1 ≤ 9) }
    requires top { IsWithin 90 top.0 × (top.1 ≤ 9) }
    ensures { MatchOption result (IsFrame (frame_of left bottom right top)
        → ⊥) (λ w. w ≡ frame_of left bottom right top) }
{
    let most = most_places(left.1, bottom.1, right.1, top.1);
    PlaneWindow::new(
        in_units(most, left.0, left.1),
        in_units(most, right.0, right.1),
        in_units(most, bottom.0, bottom.1),
        in_units(most, top.0, top.1),
        power(most),
    )
}

/// The most digits behind a point.
fn most_places(a: u32, b: u32, c: u32, d: u32) -> u32
    requires a { a ≤ 9 }
    requires b { b ≤ 9 }
    requires c { c ≤ 9 }
    requires d { d ≤ 9 }
    ensures value { result ≡ most_places a b c d }
    ensures most { result ≤ 9 }
    ensures a { a ≤ result }
    ensures b { b ≤ result }
    ensures c { c ≤ result }
    ensures d { d ≤ result }
{
    a.max(b).max(c.max(d))
}

/// So many `10 ^ -places` in units of `10 ^ -most`.
fn in_units(most: u32, number: i128, places: u32) -> i128
    requires number { IsWithin 90 number }
    requires most { most ≤ 9 }
    requires places { places ≤ most }
    ensures { result ≡ in_units most (number, places) }
{
    number * power(most - places)
}

/// A decimal that is the whole text, and how many digits stand behind its point.
fn whole_decimal(text: &[u8]) -> Option<(i128, u32)>
    ensures some { IfSome result (λ x. whole_decimal text.now ≡ Some x) }
    ensures none { IfNone result (whole_decimal text.now ≡ None) }
    ensures number { IfSome result (λ x. IsWithin 90 x.0 × (x.1 ≤ 9)) }
{
    let (number, places, rest) = decimal(text)?;
    if rest.is_empty() {
        Some((number, places))
    } else {
        None
    }
}

/// A decimal and a comma, and what stands behind them.
fn item(text: &[u8]) -> Option<(i128, u32, &[u8])>
    ensures some { IfSome result (λ x. item_at text.now ≡ Some (x.0, x.1, x.2.now)) }
    ensures none { IfNone result (item_at text.now ≡ None) }
    ensures number { IfSome result (λ x. IsWithin 90 x.0 × (x.1 ≤ 9)) }
{
    let (number, places, rest) = decimal(text)?;
    let rest = behind(b',', rest)?;
    Some((number, places, rest))
}

/// A decimal, how many digits stand behind its point, and what stands behind it.
fn decimal(text: &[u8]) -> Option<(i128, u32, &[u8])>
    ensures some { IfSome result (λ x. decimal_at text.now ≡ Some (x.0, x.1, x.2.now)) }
    ensures none { IfNone result (decimal_at text.now ≡ None) }
    ensures number { IfSome result (λ x. IsWithin 90 x.0 × (x.1 ≤ 9)) }
{
    match behind(b'-', text) {
        None => {
            let (number, places, rest) = magnitude(text)?;
            Some((number as i128, places, rest))
        }
        Some(text) => {
            let (number, places, rest) = magnitude(text)?;
            Some((-(number as i128), places, rest))
        }
    }
}

/// A decimal without a sign, how many digits stand behind its point, and what stands behind it.
fn magnitude(text: &[u8]) -> Option<(u128, u32, &[u8])>
    ensures some { IfSome result (λ x. magnitude_at text.now ≡ Some (x.0, x.1, x.2.now)) }
    ensures none { IfNone result (magnitude_at text.now ≡ None) }
    ensures number { IfSome result (λ x. (x.0 < 2 ^ 90) × (x.1 ≤ 9)) }
{
    let (whole, _, rest) = some_digits(WHOLE, 0, text)?;
    match behind(b'.', rest) {
        None => Some((whole, 0, rest)),
        Some(rest) => some_digits(PLACES, whole, rest),
    }
}

/// One digit or more that a text begins with, at most so many, read behind others that read as a number.
fn some_digits(most: u32, number: u128, text: &[u8]) -> Option<(u128, u32, &[u8])>
    requires { (number + 1) * 10 ^ most ≤ 10 ^ 27 }
    ensures some { IfSome result (λ x. some_digits (digits_at most number 0 text.now) ≡ Some (x.0, x.1, x.2.now)) }
    ensures none { IfNone result (some_digits (digits_at most number 0 text.now) ≡ None) }
    ensures number { IfSome result (λ x. x.0 < (number + 1) * 10 ^ most) }
    ensures count { IfSome result (λ x. x.1 ≤ most) }
{
    let (number, count, rest) = digits(most, number, 0, text);
    if count == 0 {
        None
    } else {
        Some((number, count, rest))
    }
}

/// The digits that a text begins with, read behind `count` others that read as a number: what they read as all
/// together, how many they are, at most so many, and what stands behind them.
fn digits(most: u32, number: u128, count: u32, text: &[u8]) -> (u128, u32, &[u8])
    requires count { count ≤ most }
    requires short { (number + 1) * 10 ^ (most - count) ≤ 10 ^ 27 }
    ensures value { (result.0, result.1, result.2.now) ≡ digits_at most number count text.now }
    ensures number { result.0 < (number + 1) * 10 ^ (most - count) }
    ensures count { result.1 ≤ most }
{
    let Some((byte, rest)) = text.split_first() else {
        return (number, count, text);
    };
    if is_digit(*byte) && count < most {
        return digits(most, followed(number, *byte), count + 1, rest);
    }
    (number, count, text)
}

/// A number and one digit more.
fn followed(number: u128, byte: u8) -> u128
    requires number { number < 10 ^ 27 }
    requires digit { is_digit byte ≡ true }
    ensures value { result ≡ 10 * number + (byte - 48) }
    ensures less { result < 10 * (number + 1) }
{
    10 * number + u128::from(byte - b'0')
}

/// Whether the byte is a decimal digit.
fn is_digit(byte: u8) -> bool
    ensures { result ≡ is_digit byte }
{
    48 <= byte && byte <= 57
}

/// What stands behind a byte, where the text begins with it.
fn behind(byte: u8, text: &[u8]) -> Option<&[u8]>
    ensures some { IfSome result (λ x. behind byte text.now ≡ Some x.now) }
    ensures none { IfNone result (behind byte text.now ≡ None) }
{
    let (first, rest) = text.split_first()?;
    if *first == byte { Some(rest) } else { None }
}
