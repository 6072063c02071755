//! Corners, as points with a common denominator.
use std::marker::Model;

/// The point `(x / den, y / den)`. The denominator is above 0 and has at most 63 binary digits, the other two have at
/// most 94.
#[derive(Clone, Copy, Debug)]
pub struct Corner {
    pub x: i128,
    pub y: i128,
    pub den: i128,
}

impl Model for Corner {
    ghost use Rattle.ded_polygon.specs.Plane.{Spot};

    ghost Value = { Spot };

    ghost use Rattle.ded_polygon.specs.Ranges.{IsShortSpot};

    ghost view = { λ c. record { x = c.x; y = c.y; den = c.den } };

    ghost inverse = { λ c. record { x = c.x; y = c.y; den = c.den } };

    ghost invariant = { λ c. IsShortSpot (record { x = c.x; y = c.y; den = c.den }) };
}
