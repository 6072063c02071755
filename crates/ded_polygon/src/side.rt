//! Half planes with short numbers, and how corners lie to them.
ghost use Rattle.std.specs.Prelude.{◌≡◌, ◌↔◌, pos, ◌<ℤ◌, ◌≤ℤ◌, IsTrue, MatchOption};
ghost use Rattle.ded_polygon.specs.Plane.{level, bend, crossing};
ghost use Rattle.ded_polygon.specs.Rows.{opposite};

use crate::corner::Corner;
use crate::number::{cross, product, sum};
use std::marker::Model;

/// The points with `a * x + b * y + c` at most 0.
#[derive(Clone, Copy)]
pub(crate) struct PlaneSide {
    pub a: i128,
    pub b: i128,
    pub c: i128,
}

impl Model for PlaneSide {
    ghost use Rattle.ded_polygon.specs.Plane.{HalfPlane};

    ghost Value = { HalfPlane };

    ghost use Rattle.ded_polygon.specs.Ranges.{IsShortSide};

    ghost view = { λ s. record { a = s.a; b = s.b; c = s.c } };

    ghost inverse = { λ s. record { a = s.a; b = s.b; c = s.c } };

    ghost invariant = { λ s. IsShortSide (record { a = s.a; b = s.b; c = s.c }) };
}

impl PlaneSide {
    /// The left side at the corner, over its denominator: at most 0 inside, 0 on the border.
    pub fn level(self, corner: Corner) -> i128
        ensures { result ≡ level self corner }
    {
        sum(
            sum(product(self.a, corner.x), product(self.b, corner.y)),
            product(self.c, corner.den),
        )
    }

    /// Above 0 where the way along the border, with the inside to its left, leads out of the other half plane.
    pub fn bend(self, other: PlaneSide) -> i128
        ensures { result ≡ bend self other }
    {
        cross(self.a, other.b, self.b, other.a)
    }

    /// Whether the corner is outside.
    pub fn excludes(self, corner: Corner) -> bool
        ensures { IsTrue result ↔ (pos 0 <ℤ level self corner) }
    {
        self.level(corner) > 0
    }

    /// Whether the corner is on the border.
    pub fn touches(self, corner: Corner) -> bool
        ensures { IsTrue result ↔ (level self corner ≡ pos 0) }
    {
        self.level(corner) == 0
    }

    /// Whether the corner is inside, and not on the border.
    pub fn surrounds(self, corner: Corner) -> bool
        ensures { IsTrue result ↔ (level self corner <ℤ pos 0) }
    {
        self.level(corner) < 0
    }

    /// Whether the way along the border, with the inside to its left, leads out of the other half plane.
    pub fn leads_out_of(self, other: PlaneSide) -> bool
        ensures { IsTrue result ↔ (pos 0 <ℤ bend self other) }
    {
        self.bend(other) > 0
    }

    /// Where the borders cross, if the way along the first one leads out of the other half plane there.
    pub fn crossing(self, other: PlaneSide) -> Option<Corner>
        ensures { MatchOption result (bend self other ≤ℤ pos 0) (λ c. (c ≡ crossing self other)
            × (pos 0 <ℤ bend self other)) }
    {
        let den = self.bend(other);
        if den <= 0 {
            return None;
        }
        Some(Corner {
            x: cross(self.b, other.c, self.c, other.b),
            y: cross(self.c, other.a, self.a, other.c),
            den,
        })
    }

    /// The half plane on the other side of the border.
    pub fn opposite(self) -> PlaneSide
        ensures { result ≡ opposite self }
    {
        PlaneSide {
            a: -self.a,
            b: -self.b,
            c: -self.c,
        }
    }
}
