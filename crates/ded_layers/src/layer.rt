//! The lines of the sides of all parts.
ghost use Rattle.std.specs.Prelude.{◌≡◌, ◌↔◌, ◌<◌, List, length, IsTrue, IfOk, OnOk, MatchOption};
ghost use Rattle.ded_polygon.specs.Lists.{after};
ghost use Rattle.ded_polygon.specs.Windows.{Frame};
ghost use Rattle.ded_strokes.specs.Bounds.{PlaneLimit};
ghost use Rattle.ded_strokes.specs.Stretches.{AreEnough};
ghost use Rattle.ded_layers.specs.Layers.{pieces_of, ArePartsWithin, AreCornersWithin, AreLines, ArePartLines};
ghost use Rattle.ded_layers.specs.Layers.{AreFirstLines, RunsThrough, IsBorder, AreSideLines, Adds, AreAllEnough};
ghost use Rattle.ded_layers.specs.Indexed.{IsIndex};

use crate::copying::near_pieces;
use crate::index::index_of;
use crate::part::Part;
use ded_hull::Hulls;
use ded_model::memory::NoMemory;
use ded_polygon::{Corner, PlaneWindow};
use ded_strokes::{PlaneLimit, PlanePiece, Stretch, add_lines, stretches};
use std::alloc::Global;

/// The lines of the parts in order, side after side: those of the side from each corner to the next, and from the last
/// one to the first. A side that no border of its own piece runs along has none, as it is one of the window alone; else
/// its lines are those of stretches into which it is cut, each of which is drawn alike among all pieces of the parts.
///
/// Parts with less than three corners have no sides.
///
/// # Errors
/// Out of memory.
pub fn lines(alloc: Global, parts: &[Part], window: PlaneWindow) -> Result<Vec<Stretch>, NoMemory>
    requires within { ArePartsWithin window parts.now }
    ensures { IfOk result (λ ls. AreLines (pieces_of parts.now) parts.now ls.items) }
{
    let index = index_of(alloc, parts, window)?;
    let mut lines = Vec::new(alloc);
    for i in 0..parts.len() {
        add_part(parts, &index, &parts[i], &mut lines)?;
    }
    Ok(lines)
}

/// Adds the lines of one of the parts.
///
/// # Errors
/// Out of memory.
fn add_part(
    parts: &[Part],
    index: &Hulls,
    part: &Part,
    lines: &mut Vec<Stretch>,
) -> Result<(), NoMemory>
    ensures { (w : Frame) → AreCornersWithin w part.now.corners.items → IsIndex w parts.now index.now.entries
        → OnOk result (Adds (ArePartLines (pieces_of parts.now) part.now) lines.old.items lines.new.items) }
{
    if part.corners.len() < 3 {
        return Ok(());
    }
    let alloc = *lines.allocator();
    let near = near_pieces(alloc, parts, index, &part.corners)?;
    add_sides(&near, &part.piece, &part.corners, lines)
}

/// Adds the lines of the sides of a piece, by enough of the pieces.
///
/// # Errors
/// Out of memory.
fn add_sides(
    near: &[PlanePiece],
    own: &PlanePiece,
    corners: &[Corner],
    lines: &mut Vec<Stretch>,
) -> Result<(), NoMemory>
    ensures { (pieces : List (List PlaneLimit)) → AreAllEnough corners.now near.now pieces
        → OnOk result (Adds (AreFirstLines pieces own.now corners.now (length corners.now))
        lines.old.items lines.new.items) }
{
    for k in 0..corners.len() {
        add_side(
            near,
            own,
            corners[k],
            corners[after(corners.len(), k)],
            lines,
        )?;
    }
    Ok(())
}

/// The place after k of so many, the first one after the last.
fn after(count: usize, k: usize) -> usize
    requires { k < count }
    ensures place { result ≡ after count k }
    ensures inside { result < count }
{
    if k + 1 == count { 0 } else { k + 1 }
}

/// Adds the lines of a side, by enough of the pieces.
///
/// # Errors
/// Out of memory.
fn add_side(
    near: &[PlanePiece],
    own: &PlanePiece,
    from: Corner,
    to: Corner,
    lines: &mut Vec<Stretch>,
) -> Result<(), NoMemory>
    ensures { (pieces : List (List PlaneLimit)) → AreEnough from to near.now pieces
        → OnOk result (Adds (AreSideLines pieces own.now from to) lines.old.items lines.new.items) }
{
    let Some(side) = border(own, from, to) else {
        return Ok(());
    };
    let alloc = *lines.allocator();
    let cut = stretches(alloc, near, side, from, to)?;
    let _ = (from.den, to.den); // for their invariants
    add_lines(lines, &cut)
}

/// A limit of the piece whose border is a line through both corners.
fn border(own: &PlanePiece, from: Corner, to: Corner) -> Option<PlaneLimit>
    ensures { MatchOption result ((b : PlaneLimit) → IsBorder own.now from to b → ⊥) (λ b. IsBorder own.now from to b) }
{
    find_border(own.limits(), from, to)
}

/// A limit of the list whose border is a line through both corners.
fn find_border(limits: &[PlaneLimit], from: Corner, to: Corner) -> Option<PlaneLimit>
    ensures { MatchOption result ((b : PlaneLimit) → IsBorder limits.now from to b
        → ⊥) (λ b. IsBorder limits.now from to b) }
{
    for limit in limits {
        if runs_through(*limit, from, to) {
            return Some(*limit);
        }
    }
    None
}

/// Whether the border of the limit is a line through both corners.
fn runs_through(limit: PlaneLimit, from: Corner, to: Corner) -> bool
    ensures { IsTrue result ↔ RunsThrough from to limit }
{
    limit.is_proper() && limit.touches(from) && limit.touches(to)
}
