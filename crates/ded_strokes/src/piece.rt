//! Pieces: conjunctions over two slots, as limits.
ghost use Rattle.std.specs.Prelude.{◌≡◌, ◌↔◌, IsTrue, IfOk, IsErrOf, List, false};
ghost use Rattle.std.specs.List.{list_all, list_any};
ghost use Rattle.ded_model.specs.declared.memory.Refused.TheVariants.{Wide};
ghost use Rattle.ded_model.specs.Point.{Point, same_slot};
ghost use Rattle.ded_model.specs.Constraint.{LinearConstraint};
ghost use Rattle.ded_model.specs.Row.{sign_meets};
ghost use Rattle.ded_polygon.specs.Plane.{level};
ghost use Rattle.ded_polygon.specs.Closures.{AreInRange, MentionOnly};
ghost use Rattle.ded_strokes.specs.Bounds.{piece_holds, limits_of, rows_hold, spot_at};
ghost use Rattle.ded_strokes.specs.Near.{Near, piece_soon, growth, soon};
ghost use Rattle.ded_strokes.specs.Strokes.{parts_levels, level_between};
ghost use Rattle.ded_strokes.specs.Stretches.{misses};

use crate::direction::Direction;
use crate::limit::PlaneLimit;
use ded_model::memory::{NoMemory, Refused};
use ded_model::row::Row;
use ded_model::slot::Slot;
use ded_polygon::Corner;
use std::alloc::Global;
use std::marker::Model;

/// A conjunction over two slots. Contracts see the list of its limits.
#[derive(Drop)]
pub struct PlanePiece {
    limits: Vec<PlaneLimit>,
}

impl Model for PlanePiece {
    ghost use Rattle.std.specs.Prelude.{List};
    ghost use Rattle.ded_strokes.specs.Bounds.{PlaneLimit};

    ghost Value = { List PlaneLimit };

    ghost view = { λ p. p.limits.items };
}

impl PlanePiece {
    /// The piece of rows over two slots, with one limit for each row.
    ///
    /// # Errors
    /// `Wide` only where a number of a row is beyond the exact range; otherwise out of memory.
    pub fn new(alloc: Global, rows: &[Row], x: Slot, y: Slot) -> Result<PlanePiece, Refused>
        ensures limits { IfOk result (λ p. p ≡ limits_of x y rows.now) }
        ensures wide { IsErrOf result Wide → AreInRange x y rows.now → ⊥ }
    {
        let mut limits = Vec::new(alloc);
        for row in rows {
            let Some(limit) = PlaneLimit::new(row, x, y) else {
                return Err(Refused::Wide);
            };
            limits.push(limit)?;
        }
        Ok(PlanePiece { limits })
    }

    /// An equal piece.
    ///
    /// # Errors
    /// Out of memory.
    pub fn copy(&self, alloc: Global) -> Result<PlanePiece, NoMemory>
        ensures { IfOk result (λ p. p ≡ self.now) }
    {
        let limits = Vec::from_slice(alloc, self.limits())?;
        Ok(PlanePiece { limits })
    }

    /// The limits, one for each row.
    pub fn limits(&self) -> &[PlaneLimit]
        ensures { result.now ≡ self.now }
    {
        self.limits.as_slice()
    }

    /// Whether the points as near as one likes in the direction are in the piece: whether there is a positive number so
    /// that each point that is a positive number up to that times the direction off the corner is in it.
    pub fn holds_near(&self, corner: Corner, direction: Direction) -> bool
        ensures { IsTrue result ↔ Near (piece_holds self.now) corner direction }
    {
        let _ = &corner.den; // for its invariant
        self.holds_soon(corner, direction)
    }

    /// Whether the levels at the corner, and where these are 0 their growths, are as the limits say.
    fn holds_soon(&self, corner: Corner, direction: Direction) -> bool
        ensures { result ≡ piece_soon self.now corner direction }
    {
        self.limits()
            .iter()
            .all(|limit| limit.holds_soon(corner, direction))
    }

    /// Whether a border is crossed between the corners.
    pub(crate) fn is_parted(&self, from: Corner, to: Corner) -> bool
        ensures { result ≡ list_any (λ b. parts_levels (level b.plane from) (level b.plane to)) self.now }
    {
        self.limits().iter().any(|limit| limit.parts(from, to))
    }

    /// Whether one limit alone tells that neither a point between the corners nor what is near it is in the piece.
    pub(crate) fn misses(&self, from: Corner, to: Corner) -> bool
        ensures { result ≡ misses from to self.now }
    {
        self.limits().iter().any(|limit| limit.keeps_off(from, to))
    }

    /// Whether the piece holds between the corners, if no border is crossed there.
    pub(crate) fn holds_between(&self, from: Corner, to: Corner) -> bool
        ensures { result ≡ list_all (λ b. sign_meets b.op (level_between b from to)) self.now }
    {
        self.limits()
            .iter()
            .all(|limit| limit.holds_between(from, to))
    }

    /// Whether the piece holds soon after each point between the corners, if no border is crossed there.
    pub(crate) fn holds_soon_between(&self, from: Corner, to: Corner, direction: Direction) -> bool
        ensures { result ≡ list_all (λ b. soon b.op (level_between b from to) (growth b.plane direction)) self.now }
    {
        self.limits()
            .iter()
            .all(|limit| limit.holds_soon_between(from, to, direction))
    }
}

/// The rows of a piece hold at a point exactly where its limits do at the spot of the point.
pub fn rows_are_limits(x: Slot, y: Slot)
    requires { same_slot x y ≡ false }
    ensures { (rows : List LinearConstraint) → MentionOnly x y rows → (p : Point)
        → rows_hold rows p ≡ piece_holds (limits_of x y rows) (spot_at x y p) }
{
    let _ = x.is_same(y);
}
