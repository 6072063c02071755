//! How the points between two corners of a border are drawn.
ghost use Rattle.std.specs.Prelude.{◌≡◌, true, false, MatchOption};
ghost use Rattle.ded_strokes.specs.Strokes.{HaveStroke, is_parted, union_between, union_soon};

use crate::direction::Direction;
use crate::piece::PlanePiece;
use ded_polygon::Corner;

/// How the points of a stretch of a border are drawn.
#[derive(Clone, Copy, Debug, PartialEq, Eq)]
pub enum Stroke {
    /// Not at all: the pieces go on across the border.
    Seam,
    /// The points are in the pieces, and the pieces end there.
    Solid,
    /// The points are not in the pieces.
    Dashed,
}

/// How each point strictly between the corners is drawn, across which the direction leads: not at all exactly where it
/// is in a piece and the points as near as one likes in the direction and in the opposite one are in pieces too; else
/// solid exactly where it is in a piece, and dashed exactly where it is in none. None only where a border of a piece is
/// crossed between the corners.
pub fn stroke_between(
    pieces: &[PlanePiece],
    from: Corner,
    to: Corner,
    across: Direction,
) -> Option<Stroke>
    ensures { MatchOption result (is_parted pieces.now from to ≡ true) (λ s. HaveStroke pieces.now across from to s) }
{
    if is_parted(pieces, from, to) {
        return None;
    }
    Some(told(pieces, from, to, across))
}

/// The same, where no border is crossed between the corners.
pub(crate) fn told(pieces: &[PlanePiece], from: Corner, to: Corner, across: Direction) -> Stroke
    requires { is_parted pieces.now from to ≡ false }
    ensures { HaveStroke pieces.now across from to result }
{
    let _ = (from.den, to.den); // for their invariants
    if !union_between(pieces, from, to) {
        return Stroke::Dashed;
    }
    if !union_soon(pieces, from, to, across) {
        return Stroke::Solid;
    }
    let back = across.turned();
    if !union_soon(pieces, from, to, back) {
        return Stroke::Solid;
    }
    Stroke::Seam
}

/// Whether a border of a piece is crossed between the corners.
fn is_parted(pieces: &[PlanePiece], from: Corner, to: Corner) -> bool
    ensures { result ≡ is_parted pieces.now from to }
{
    pieces.iter().any(|piece| piece.is_parted(from, to))
}

/// Whether some piece holds between the corners, if no border is crossed there.
fn union_between(pieces: &[PlanePiece], from: Corner, to: Corner) -> bool
    ensures { result ≡ union_between pieces.now from to }
{
    pieces.iter().any(|piece| piece.holds_between(from, to))
}

/// Whether some piece holds soon after each point between the corners, if no border is crossed there.
fn union_soon(pieces: &[PlanePiece], from: Corner, to: Corner, direction: Direction) -> bool
    ensures { result ≡ union_soon pieces.now from to direction }
{
    pieces
        .iter()
        .any(|piece| piece.holds_soon_between(from, to, direction))
}
