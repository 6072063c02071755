//! Directions of the plane.
ghost use Rattle.std.specs.Prelude.{◌≡◌, IsTrue, ◌↔◌, MatchOption};
ghost use Rattle.ded_num.specs.Length.{IsWithin};
ghost use Rattle.ded_strokes.specs.Near.{IsShortDirection, turned};

use std::marker::Model;

/// The direction `(u, v)`. Both numbers are below 2 ^ 31 in size.
#[derive(Clone, Copy, Debug)]
pub struct Direction {
    pub u: i128,
    pub v: i128,
}

impl Model for Direction {
    ghost use Rattle.ded_strokes.specs.Near.{Direction, IsShortDirection};

    ghost Value = { Direction };

    ghost view = { λ d. record { u = d.u; v = d.v } };

    ghost inverse = { λ d. record { u = d.u; v = d.v } };

    ghost invariant = { λ d. IsShortDirection (record { u = d.u; v = d.v }) };
}

impl Direction {
    /// The direction of these numbers. None where one is beyond the exact range.
    pub fn new(u: i128, v: i128) -> Option<Direction>
        ensures { MatchOption result (IsShortDirection (record { u = u; v = v })
            → ⊥) (λ d. d ≡ record { u = u; v = v }) }
    {
        if !is_coefficient(u) {
            return None;
        }
        if !is_coefficient(v) {
            return None;
        }
        Some(Direction { u, v })
    }

    /// The opposite direction.
    pub fn turned(self) -> Direction
        ensures { result ≡ turned self }
    {
        Direction {
            u: -self.u,
            v: -self.v,
        }
    }
}

/// Whether the number is below 2 ^ 31 in size.
pub(crate) fn is_coefficient(a: i128) -> bool
    ensures { IsTrue result ↔ IsWithin 31 a }
{
    a.unsigned_abs() < 1 << 31
}
