//! Sums and products as far as 127 binary digits go, for lower ends: nothing is known of what is too low, and what is
//! too high counts as the highest.
ghost use Rattle.std.specs.Prelude.{◌≡◌, ◌+ℤ◌, ◌*ℤ◌};
ghost use Rattle.ded_num.specs.Length.{IsShort};
ghost use Rattle.ded_ranges.specs.Limits.{kept, turned, is_same_sign, beyond};

use ded_num::{short_product, short_sum};

/// The product, or its negative.
pub(crate) fn product(flipped: bool, a: i128, b: i128) -> Option<i128>
    ensures { result ≡ kept (turned flipped a *ℤ b) }
{
    match short_product(a, b) {
        Some(product) => Some(directed(flipped, product)),
        None => beyond(is_same_sign(a, b), flipped),
    }
}

/// The sum.
pub(crate) fn sum(a: i128, b: i128) -> Option<i128>
    ensures { result ≡ kept (a +ℤ b) }
{
    match short_sum(a, b) {
        Some(sum) => Some(sum),
        None => beyond(0 < a, false),
    }
}

/// The number, or its negative.
pub(crate) fn directed(flipped: bool, number: i128) -> i128
    requires { IsShort number }
    ensures { result ≡ turned flipped number }
{
    if flipped { -number } else { number }
}

/// Whether the signs don't make the product negative.
fn is_same_sign(a: i128, b: i128) -> bool
    ensures { result ≡ is_same_sign a b }
{
    if a < 0 { b < 0 } else { 0 <= b }
}

/// What is kept of a number that is too long, above or below 0, or of its negative.
fn beyond(above: bool, flipped: bool) -> Option<i128>
    ensures { result ≡ beyond above flipped }
{
    match (above, flipped) {
        (true, false) => Some(i128::MAX),
        (false, true) => Some(i128::MAX),
        (true, true) => None,
        (false, false) => None,
    }
}
