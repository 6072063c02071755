//! The value of a slot at a point, in lowest terms.
ghost use Rattle.std.specs.Prelude.{MatchOption, ◌<ℤ◌, pos};
ghost use Rattle.ded_simplex.specs.Ends.{IsValue};

use ded_model::bound::Frac;
use ded_num::{gcd, quotient, short_product};

/// The number over the denominator in lowest terms. None where the denominator isn't positive, or one of them has no
/// negative.
pub(crate) fn fraction(number: i128, denominator: i128) -> Option<Frac>
    ensures { MatchOption result Unit (λ f. IsValue number denominator f) }
{
    if denominator <= 0 || number == i128::MIN {
        return None;
    }
    let by = gcd(number, denominator);
    if by <= 0 {
        return None;
    }
    checked_fraction(
        number,
        denominator,
        quotient(number, by),
        quotient(denominator, by),
        by,
    )
}

/// The fraction of these terms, where they times the divisor are the number and the denominator, and have no common
/// divisor.
fn checked_fraction(number: i128, denominator: i128, num: i128, den: i128, by: i128) -> Option<Frac>
    requires denominator { pos 0 <ℤ denominator }
    ensures { MatchOption result Unit (λ f. IsValue number denominator f) }
{
    if num == i128::MIN || den <= 0 || gcd(num, den) != 1 {
        return None;
    }
    if short_product(num, by)? != number || short_product(den, by)? != denominator {
        return None;
    }
    Some(Frac { num, den })
}
