//! Windows that pictures are cut at.
ghost use Rattle.std.specs.Prelude.{◌≡◌, ◌↔◌, pos, ◌<ℤ◌, IsTrue, MatchOption};
ghost use Rattle.ded_num.specs.Length.{IsWithin};
ghost use Rattle.ded_polygon.specs.Windows.{Frame, IsFrame, window_planes};

use crate::side::PlaneSide;
use std::marker::Model;

/// The points with x from `left / den` to `right / den` and y from `bottom / den` to `top / den`. The denominator is
/// above 0 and below 2 ^ 31, the other numbers are below 2 ^ 62 in size, and each first one is less than the second.
#[derive(Clone, Copy, Debug)]
pub struct PlaneWindow {
    pub left: i128,
    pub right: i128,
    pub bottom: i128,
    pub top: i128,
    pub den: i128,
}

impl Model for PlaneWindow {
    ghost use Rattle.ded_polygon.specs.Windows.{Frame, IsFrame};

    ghost Value = { Frame };

    ghost view = { λ w. record { left = w.left; right = w.right; bottom = w.bottom; top = w.top; den = w.den } };

    ghost inverse = { λ w. record { left = w.left; right = w.right; bottom = w.bottom; top = w.top; den = w.den } };

    ghost invariant = { λ w.
        IsFrame (record { left = w.left; right = w.right; bottom = w.bottom; top = w.top; den = w.den }) };
}

impl PlaneWindow {
    /// The window of these numbers. None where one is beyond the exact range, or the window has no inside.
    pub fn new(left: i128, right: i128, bottom: i128, top: i128, den: i128) -> Option<PlaneWindow>
        ensures { let w : Frame = record { left = left; right = right; bottom = bottom; top = top; den = den } in
            MatchOption result (IsFrame w → ⊥) (λ v. v ≡ w) }
    {
        if !is_denominator(den) {
            return None;
        }
        if !are_ends(left, right) {
            return None;
        }
        if !are_ends(bottom, top) {
            return None;
        }
        Some(PlaneWindow {
            left,
            right,
            bottom,
            top,
            den,
        })
    }

    /// The half planes left, right, below and above.
    pub(crate) fn sides(self) -> [PlaneSide; 4]
        ensures sides { result ≡ window_planes self }
        ensures positive { pos 0 <ℤ self.den }
    {
        [
            PlaneSide {
                a: -self.den,
                b: 0,
                c: self.left,
            },
            PlaneSide {
                a: self.den,
                b: 0,
                c: -self.right,
            },
            PlaneSide {
                a: 0,
                b: -self.den,
                c: self.bottom,
            },
            PlaneSide {
                a: 0,
                b: self.den,
                c: -self.top,
            },
        ]
    }
}

/// Whether the number is above 0 and below 2 ^ 31.
fn is_denominator(den: i128) -> bool
    ensures { IsTrue result ↔ (IsWithin 31 den × (pos 0 <ℤ den)) }
{
    0 < den && den < 1 << 31
}

/// Whether the first number is less than the second, and both are below 2 ^ 62 in size.
fn are_ends(from: i128, to: i128) -> bool
    ensures { IsTrue result ↔ (IsWithin 62 from × IsWithin 62 to × (from <ℤ to)) }
{
    is_end(from) && is_end(to) && from < to
}

/// Whether the number is below 2 ^ 62 in size.
fn is_end(z: i128) -> bool
    ensures { IsTrue result ↔ IsWithin 62 z }
{
    z.unsigned_abs() < 1 << 62
}
