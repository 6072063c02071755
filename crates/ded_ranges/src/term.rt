//! The values of a column at which a multiple of them and a constant stand to 0 in one way or another.
ghost use Rattle.std.specs.Prelude.{◌≡◌, true, ◌+ℤ◌, ◌*ℤ◌, ◌<ℤ◌, ◌≤ℤ◌, ℕ, ℤ, pos, neg_ℤ, [], ◌∷◌, IfSome};
ghost use Rattle.ded_num.specs.Length.{IsShort};
ghost use Rattle.ded_model.specs.Row.{sign_meets};
ghost use Rattle.ded_ranges.specs.declared.reach.Range.{Range};
ghost use Rattle.ded_ranges.specs.Boxes.{overlap, least_with, IsRangeAround, StaysAround};
ghost use Rattle.ded_ranges.specs.Codes.{fine};
ghost use Rattle.ded_ranges.specs.Limits.{at_most_zero, may_be};
ghost use Rattle.ded_ranges.specs.Reaches.{IsIn, Lies};
ghost use Rattle.ded_ranges.specs.Tuples.{IsRangeOf};

use crate::end::End;
use crate::reach::{Range, Reach, everywhere, met, negative, whole};
use ded_model::row::RowOp;

/// Narrows the reach to the values at a place of which the multiple and the constant stand to 0 as the op says.
pub(crate) fn narrow_to_term(reach: &mut Reach, place: usize, a: i128, constant: i128, op: RowOp)
    ensures lies { (v : ℕ → ℤ) (den : ℕ) → Lies reach.old v den
        → sign_meets op (a *ℤ v place +ℤ constant *ℤ pos den) ≡ true → Lies reach.new v den }
    ensures around { StaysAround (λ rs. may_be rs ((place, a) ∷ []) constant op) reach.old reach.new }
{
    reach.narrow(place, range_of(a, constant, op));
}

/// The values of a column of which the multiple and the constant stand to 0 as the op says, rounded outward. Ends that
/// would be too long are left out.
fn range_of(a: i128, constant: i128, op: RowOp) -> Range
    ensures values { IsRangeOf result a constant op }
    ensures around { IsRangeAround result a constant op }
{
    match op {
        RowOp::Zero => met(at_most(a, constant), at_least(a, constant)),
        RowOp::AtMost => at_most(a, constant),
        RowOp::Below => at_most(a, constant),
    }
}

/// The values of which the multiple and the constant are at least 0 together.
fn at_least(a: i128, constant: i128) -> Range
    ensures values { (num : ℤ) (den : ℕ) → pos 0 ≤ℤ (a *ℤ num +ℤ constant *ℤ pos den) → IsIn result num den }
    ensures around { (r : Range) → at_most_zero (least_with (neg_ℤ a) (neg_ℤ constant) r) ≡ true
        → overlap result r ≡ true }
{
    match (a.checked_neg(), constant.checked_neg()) {
        (Some(a), Some(constant)) => at_most(a, constant),
        _ => everywhere(),
    }
}

/// The values of which the multiple and the constant are at most 0 together.
fn at_most(a: i128, constant: i128) -> Range
    ensures values { (num : ℤ) (den : ℕ) → (a *ℤ num +ℤ constant *ℤ pos den) ≤ℤ pos 0 → IsIn result num den }
    ensures around { (r : Range) → at_most_zero (least_with a constant r) ≡ true → overlap result r ≡ true }
{
    if 0 < a {
        Range {
            low: End::none(),
            high: End::at_least(high_units(a, constant)),
        }
    } else if a < 0 {
        Range {
            low: End::at_most(low_units(a, constant)),
            high: End::none(),
        }
    } else {
        everywhere()
    }
}

/// A number of units at or above the values, whose coefficient is positive.
fn high_units(a: i128, constant: i128) -> Option<i128>
    requires { pos 0 <ℤ a }
    ensures above { IfSome result (λ k. (neg_ℤ k *ℤ a) ≤ℤ (constant *ℤ pos fine)) }
    ensures short { IfSome result (λ _. IsShort (constant *ℤ pos fine)) }
{
    match whole(constant, a) {
        Some(units) => negative(units),
        None => None,
    }
}

/// A number of units at or below the values, whose coefficient is negative.
fn low_units(a: i128, constant: i128) -> Option<i128>
    requires { a <ℤ pos 0 }
    ensures below { IfSome result (λ k. (k *ℤ neg_ℤ a) ≤ℤ (constant *ℤ pos fine)) }
    ensures short { IfSome result (λ _. IsShort (constant *ℤ pos fine)) }
{
    match a.checked_neg() {
        Some(divisor) => whole(constant, divisor),
        None => None,
    }
}
