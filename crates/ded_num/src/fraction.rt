//! The exact order of fractions: by their cross products where these are short, and else by Euclid's steps.

ghost use Rattle.std.specs.Prelude.{◌≡◌, ◌*◌, ◌<◌, ℤ, pos, ◌<ℤ◌, ◌+ℤ◌, ◌*ℤ◌};
ghost use Rattle.std.specs.Ordering.{int_cmp, nat_cmp};

use std::cmp::Ordering;

/// The exact order of `n1 / d1` and `n2 / d2`, for any numerators and any positive denominators.
pub fn cmp_frac(n1: i128, d1: i128, n2: i128, d2: i128) -> Ordering
    requires positive_1 { pos 0 <ℤ d1 }
    requires positive_2 { pos 0 <ℤ d2 }
    ensures { result ≡ int_cmp (n1 *ℤ d2) (n2 *ℤ d1) }
{
    match (n1.checked_mul(d2), n2.checked_mul(d1)) {
        (Some(left), Some(right)) => left.cmp(&right),
        _ => cmp_by_parts(n1, d1, n2, d2),
    }
}

/// The exact order of `n1 / d1` and `n2 / d2`, by the whole parts of both and what these leave.
fn cmp_by_parts(n1: i128, d1: i128, n2: i128, d2: i128) -> Ordering
    requires positive_1 { pos 0 <ℤ d1 }
    requires positive_2 { pos 0 <ℤ d2 }
    ensures { result ≡ int_cmp (n1 *ℤ d2) (n2 *ℤ d1) }
{
    let (whole1, rest1) = whole_and_rest(n1, d1);
    let (whole2, rest2) = whole_and_rest(n2, d2);
    match whole1.cmp(&whole2) {
        Ordering::Equal => cmp_natural(rest1, d1.unsigned_abs(), rest2, d2.unsigned_abs()),
        decided => decided,
    }
}

/// The greatest whole number that is at most `n / d`, and what it leaves of `n`.
fn whole_and_rest(n: i128, d: i128) -> (i128, u128)
    requires positive { pos 0 <ℤ d }
    ensures value { n ≡ result.0 *ℤ d +ℤ pos result.1 }
    ensures proper { pos result.1 <ℤ d }
{
    (n.div_euclid(d), n.rem_euclid(d).unsigned_abs())
}

/// The order of two fractions that are not negative. Where the whole parts are equal, the rests decide, and they stand
/// to each other as their reciprocals do the other way round.
fn cmp_natural(mut n1: u128, mut d1: u128, mut n2: u128, mut d2: u128) -> Ordering
    requires positive_1 { 0 < d1 }
    requires positive_2 { 0 < d2 }
    ensures { result ≡ nat_cmp (n1 * d2) (n2 * d1) }
{
    loop {
        let by_whole = (n1 / d1).cmp(&(n2 / d2));
        if by_whole.is_ne() {
            return by_whole;
        }
        let (rest1, rest2) = (n1 % d1, n2 % d2);
        if rest1 == 0 || rest2 == 0 {
            return rest1.cmp(&rest2);
        }
        (n1, d1, n2, d2) = (d2, rest2, d1, rest1);
    }
}
