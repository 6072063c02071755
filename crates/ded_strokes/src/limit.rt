//! Limits: half planes with or without their border, or borders alone.
ghost use Rattle.std.specs.Prelude.{◌≡◌, ◌↔◌, pos, ◌<ℤ◌, ◌≤ℤ◌, true, IsTrue, MatchOption};
ghost use Rattle.ded_num.specs.Length.{IsWithin};
ghost use Rattle.ded_model.specs.Row.{sign_meets};
ghost use Rattle.ded_polygon.specs.Plane.{level, bend, crossing};
ghost use Rattle.ded_polygon.specs.Ranges.{IsShortSide};
ghost use Rattle.ded_polygon.specs.Closures.{IsInRange};
ghost use Rattle.ded_strokes.specs.Bounds.{limit_of};
ghost use Rattle.ded_strokes.specs.Near.{outward, growth, limit_soon, soon};
ghost use Rattle.ded_strokes.specs.Cuts.{IsCut};
ghost use Rattle.ded_strokes.specs.Strokes.{parts_levels, first_level, level_between};
ghost use Rattle.ded_strokes.specs.Stretches.{IsProper, is_off, keeps_off};
ghost use Rattle.ded_model.specs.declared.row.RowOp.TheVariants.{AtMost};
ghost use Rattle.ded_polygon.specs.Rows.{opposite};
ghost use Rattle.ded_polygon.specs.Windows.{window_planes};
ghost use Rattle.ded_strokes.specs.Bounds.{closed_limits};

use crate::direction::{Direction, is_coefficient};
use crate::number::{cross, product, sum};
use ded_model::row::{Row, RowOp};
use ded_model::slot::Slot;
use ded_polygon::{Corner, PlaneWindow};
use std::marker::Model;

/// The points at which `a * x + b * y + c` is 0, at most 0, or below 0. The coefficients are below 2 ^ 31 in size, the
/// constant is below 2 ^ 62.
#[derive(Clone, Copy, Debug)]
pub struct PlaneLimit {
    a: i128,
    b: i128,
    c: i128,
    op: RowOp,
}

impl Model for PlaneLimit {
    ghost use Rattle.ded_strokes.specs.Bounds.{PlaneLimit};

    ghost Value = { PlaneLimit };

    ghost use Rattle.ded_polygon.specs.Ranges.{IsShortSide};

    ghost view = { λ b. record { plane = record { a = b.a; b = b.b; c = b.c }; op = b.op } };

    ghost inverse = { λ b. record { a = b.plane.a; b = b.plane.b; c = b.plane.c; op = b.op } };

    ghost invariant = { λ b. IsShortSide (record { a = b.a; b = b.b; c = b.c }) };
}

impl PlaneLimit {
    /// The limit of a row over two slots. None where a number is beyond the exact range.
    pub fn new(row: &Row, x: Slot, y: Slot) -> Option<PlaneLimit>
        ensures { MatchOption result (IsInRange x y row.now → ⊥) (λ b. b ≡ limit_of x y row.now) }
    {
        short_limit(row.coefs.at(x), row.coefs.at(y), row.constant, row.op)
    }

    /// How the left side is compared with 0.
    pub fn op(self) -> RowOp
        ensures { result ≡ self.op }
    {
        self.op
    }

    /// Whether a coefficient is not 0, so that the border is a line.
    pub fn is_proper(self) -> bool
        ensures { IsTrue result ↔ IsProper self.plane }
    {
        self.a != 0 || self.b != 0
    }

    /// The half plane with its border.
    pub fn closed(self) -> PlaneLimit
        ensures { result ≡ record { plane = self.plane; op = AtMost } }
    {
        PlaneLimit {
            op: RowOp::AtMost,
            ..self
        }
    }

    /// The limit with the half plane on the other side of the border.
    pub fn opposite(self) -> PlaneLimit
        ensures { result ≡ record { plane = opposite self.plane; op = self.op } }
    {
        PlaneLimit {
            a: -self.a,
            b: -self.b,
            c: -self.c,
            op: self.op,
        }
    }

    /// The direction straight out.
    pub fn outward(self) -> Direction
        ensures { result ≡ outward self.plane }
    {
        Direction {
            u: self.a,
            v: self.b,
        }
    }

    /// The left side at the corner, over its denominator.
    fn level(self, corner: Corner) -> i128
        ensures { result ≡ level self.plane corner }
    {
        sum(
            sum(product(self.a, corner.x), product(self.b, corner.y)),
            product(self.c, corner.den),
        )
    }

    /// How fast the left side grows in the direction.
    fn growth(self, direction: Direction) -> i128
        ensures { result ≡ growth self.plane direction }
    {
        sum(product(self.a, direction.u), product(self.b, direction.v))
    }

    /// Whether the limit holds soon after the corner.
    pub(crate) fn holds_soon(self, corner: Corner, direction: Direction) -> bool
        ensures { result ≡ limit_soon self corner direction }
    {
        soon(self.op, self.level(corner), self.growth(direction))
    }

    /// Whether the border is crossed between the corners.
    pub(crate) fn parts(self, from: Corner, to: Corner) -> bool
        ensures { result ≡ parts_levels (level self.plane from) (level self.plane to) }
    {
        parts_levels(self.level(from), self.level(to))
    }

    /// Above 0 where the way along the border, with the inside to its left, leads out of the other half plane, and 0
    /// where both run alike.
    pub fn bend(self, other: PlaneLimit) -> i128
        ensures { result ≡ bend self.plane other.plane }
    {
        cross(self.a, other.b, self.b, other.a)
    }

    /// Where the borders cross, if the way along the first one leads out of the other half plane there.
    fn crossing(self, other: PlaneLimit) -> Option<Corner>
        ensures { MatchOption result (bend self.plane other.plane ≤ℤ pos 0) (λ c. (c ≡ crossing self.plane other.plane)
            × (pos 0 <ℤ bend self.plane other.plane)) }
    {
        let den = self.bend(other);
        if den <= 0 {
            return None;
        }
        Some(Corner {
            x: cross(self.b, other.c, self.c, other.b),
            y: cross(self.c, other.a, self.a, other.c),
            den,
        })
    }

    /// Whether the corner is on the border.
    pub fn touches(self, corner: Corner) -> bool
        ensures { IsTrue result ↔ (level self.plane corner ≡ pos 0) }
    {
        self.level(corner) == 0
    }

    /// Where the border of another limit crosses this border between two corners of it: a corner on both, strictly
    /// between the two, and a border that is not crossed between the two is not crossed between one of them and that
    /// corner. None only where the border of the other limit is not crossed between the corners, or the two borders are
    /// parallel.
    pub fn cut(self, other: PlaneLimit, from: Corner, to: Corner) -> Option<Corner>
        requires from { level self.plane from ≡ pos 0 }
        requires to { level self.plane to ≡ pos 0 }
        ensures { MatchOption result
            (parts_levels (level other.plane from) (level other.plane to) ≡ true → bend self.plane other.plane ≡ pos 0)
            (λ c. IsCut self other from to c) }
    {
        let _ = (from.den, to.den); // for their invariants
        if !other.parts(from, to) {
            return None;
        }
        if let Some(corner) = self.crossing(other) {
            return Some(corner);
        }
        if let Some(corner) = other.crossing(self) {
            return Some(corner);
        }
        None
    }

    /// A number with the sign of the left side at each point between the corners, if the border is not crossed there.
    fn level_between(self, from: Corner, to: Corner) -> i128
        ensures { result ≡ level_between self from to }
    {
        first_level(self.level(from), self.level(to))
    }

    /// Whether at each point between the corners the level is beyond what the limit allows, and not on the border.
    pub(crate) fn keeps_off(self, from: Corner, to: Corner) -> bool
        ensures { result ≡ keeps_off self.op (level self.plane from) (level self.plane to) }
    {
        !self.parts(from, to) && is_off(self.op, self.level_between(from, to))
    }

    /// Whether the limit holds between the corners, if the border is not crossed there.
    pub(crate) fn holds_between(self, from: Corner, to: Corner) -> bool
        ensures { result ≡ sign_meets self.op (level_between self from to) }
    {
        self.op.meets_zero(self.level_between(from, to))
    }

    /// Whether the limit holds soon after each point between the corners, if the border is not crossed there.
    pub(crate) fn holds_soon_between(self, from: Corner, to: Corner, direction: Direction) -> bool
        ensures { result ≡ soon self.op (level_between self from to) (growth self.plane direction) }
    {
        soon(
            self.op,
            self.level_between(from, to),
            self.growth(direction),
        )
    }
}

/// The half planes of the window with their borders: left, right, below and above.
pub fn window_limits(window: PlaneWindow) -> [PlaneLimit; 4]
    ensures { result ≡ closed_limits (window_planes window) }
{
    [
        at_most(-window.den, 0, window.left),
        at_most(window.den, 0, -window.right),
        at_most(0, -window.den, window.bottom),
        at_most(0, window.den, -window.top),
    ]
}

/// The half plane of these numbers with its border.
fn at_most(a: i128, b: i128, c: i128) -> PlaneLimit
    requires { IsShortSide (record { a = a; b = b; c = c }) }
    ensures { result ≡ record { plane = record { a = a; b = b; c = c }; op = AtMost } }
{
    PlaneLimit {
        a,
        b,
        c,
        op: RowOp::AtMost,
    }
}

/// The limit of these numbers. None where one is beyond the exact range.
fn short_limit(a: i128, b: i128, c: i128, op: RowOp) -> Option<PlaneLimit>
    ensures { MatchOption result (IsShortSide (record { a = a; b = b; c = c })
        → ⊥) (λ s. s ≡ record { plane = record { a = a; b = b; c = c }; op = op }) }
{
    if !is_coefficient(a) {
        return None;
    }
    if !is_coefficient(b) {
        return None;
    }
    if !is_constant(c) {
        return None;
    }
    Some(PlaneLimit { a, b, c, op })
}

/// Whether the number is below 2 ^ 62 in size.
fn is_constant(c: i128) -> bool
    ensures { IsTrue result ↔ IsWithin 62 c }
{
    c.unsigned_abs() < 1 << 62
}

/// Whether a level that has the sign of the first number and grows by the second one is soon as the op says.
fn soon(op: RowOp, level: i128, growth: i128) -> bool
    ensures { result ≡ soon op level growth }
{
    match op {
        RowOp::Zero => level == 0 && growth == 0,
        RowOp::AtMost => level < 0 || (level == 0 && growth <= 0),
        RowOp::Below => level < 0 || (level == 0 && growth < 0),
    }
}

/// Whether a level with the sign of this number is out of reach of the op, even on the border.
fn is_off(op: RowOp, level: i128) -> bool
    ensures { result ≡ is_off op level }
{
    match op {
        RowOp::Zero => level != 0,
        RowOp::AtMost | RowOp::Below => 0 < level,
    }
}

/// Whether the one is below 0 and the other above it.
fn parts_levels(first: i128, second: i128) -> bool
    ensures { result ≡ parts_levels first second }
{
    (first < 0 && 0 < second) || (0 < first && second < 0)
}

/// The first one, or the second one where the first one is 0.
fn first_level(first: i128, second: i128) -> i128
    ensures { result ≡ first_level first second }
{
    if first == 0 { second } else { first }
}
