//! Sides, cut where borders cross them.
ghost use Rattle.std.specs.Prelude.{◌≡◌, ◌++◌, [], true, false, pos, IfOk, OnOk, MatchOption};
ghost use Rattle.ded_polygon.specs.Plane.{In, level};
ghost use Rattle.ded_strokes.specs.Bounds.{PlaneLimit};
ghost use Rattle.ded_strokes.specs.Near.{outward};
ghost use Rattle.ded_strokes.specs.Strokes.{parts_levels, is_parted};
ghost use Rattle.ded_strokes.specs.Cuts.{IsCut};
ghost use Rattle.ded_strokes.specs.Stretches.{IsProper, AreCut, AddsCut, AreBorders, crossed, all_crossed, near_pieces};

use crate::limit::PlaneLimit;
use crate::piece::PlanePiece;
use crate::stretch::{Stroke, told};
use ded_model::memory::NoMemory;
use ded_polygon::Corner;
use std::alloc::Global;

/// A part of a side, and how each point strictly between its ends is drawn.
#[derive(Clone, Copy, Debug)]
pub struct Stretch {
    pub from: Corner,
    pub to: Corner,
    pub stroke: Stroke,
}

/// The stretches of a side between two corners on the border of a limit, in order from the one to the other: it is cut
/// where borders of the pieces cross it, so that each stretch is drawn alike.
///
/// # Errors
/// Out of memory.
pub fn stretches(
    alloc: Global,
    pieces: &[PlanePiece],
    side: PlaneLimit,
    from: Corner,
    to: Corner,
) -> Result<Vec<Stretch>, NoMemory>
    requires proper { IsProper side.plane }
    requires from { level side.plane from ≡ pos 0 }
    requires to { level side.plane to ≡ pos 0 }
    ensures { IfOk result (λ ss. AreCut pieces.now (outward side.plane) from to ss.items) }
{
    let near = near_pieces(alloc, pieces, from, to)?;
    let borders = all_crossed(alloc, &near, from, to)?;
    let mut out = Vec::new(alloc);
    add_stretches(&near, side, &borders, from, to, &mut out)?;
    let _ = (from.den, to.den); // for their invariants
    Ok(out)
}

/// Adds the stretches of a side, whose borders are these.
///
/// # Errors
/// Out of memory.
fn add_stretches(
    pieces: &[PlanePiece],
    side: PlaneLimit,
    borders: &[PlaneLimit],
    from: Corner,
    to: Corner,
    out: &mut Vec<Stretch>,
) -> Result<(), NoMemory>
    requires proper { IsProper side.plane }
    requires from { level side.plane from ≡ pos 0 }
    requires to { level side.plane to ≡ pos 0 }
    requires borders { AreBorders pieces.now from to borders.now }
    ensures { OnOk result (AddsCut pieces.now (outward side.plane) from to out.old.items out.new.items) }
{
    let alloc = *out.allocator();
    let Some(corner) = parting(side, borders, from, to) else {
        return add_whole(pieces, side, from, to, out);
    };
    let _ = (corner.den, to.den); // for their invariants
    let front = crossed(alloc, borders, from, corner)?;
    add_stretches(pieces, side, &front, from, corner, out)?;
    let back = crossed(alloc, borders, corner, to)?;
    add_stretches(pieces, side, &back, corner, to, out)
}

/// Where the middle one of the borders crosses the side, if there is one.
fn parting(side: PlaneLimit, borders: &[PlaneLimit], from: Corner, to: Corner) -> Option<Corner>
    requires proper { IsProper side.plane }
    requires from { level side.plane from ≡ pos 0 }
    requires to { level side.plane to ≡ pos 0 }
    requires crossed { (b : PlaneLimit) → In b borders.now
        → parts_levels (level b.plane from) (level b.plane to) ≡ true }
    ensures { MatchOption result (borders.now ≡ []) (λ c. (b : PlaneLimit) × In b borders.now
        × IsCut side b from to c) }
{
    if borders.is_empty() {
        return None;
    }
    let _ = (from.den, to.den); // for their invariants
    side.cut(borders[borders.len() / 2], from, to)
}

/// Adds the one stretch of a side that no border crosses.
///
/// # Errors
/// Out of memory.
fn add_whole(
    pieces: &[PlanePiece],
    side: PlaneLimit,
    from: Corner,
    to: Corner,
    out: &mut Vec<Stretch>,
) -> Result<(), NoMemory>
    requires { is_parted pieces.now from to ≡ false }
    ensures { OnOk result (AddsCut pieces.now (outward side.plane) from to out.old.items out.new.items) }
{
    let stroke = told(pieces, from, to, side.outward());
    out.push(Stretch { from, to, stroke })?;
    Ok(())
}

/// The borders of the pieces that are crossed between the corners.
///
/// # Errors
/// Out of memory.
fn all_crossed(
    alloc: Global,
    pieces: &[PlanePiece],
    from: Corner,
    to: Corner,
) -> Result<Vec<PlaneLimit>, NoMemory>
    ensures { IfOk result (λ bs. bs.items ≡ all_crossed from to pieces.now) }
{
    let mut borders = Vec::new(alloc);
    for i in 0..pieces.len() {
        add_crossed(&mut borders, pieces[i].limits(), from, to)?;
    }
    Ok(borders)
}

/// Those of the limits whose borders are crossed between the corners.
///
/// # Errors
/// Out of memory.
fn crossed(
    alloc: Global,
    limits: &[PlaneLimit],
    from: Corner,
    to: Corner,
) -> Result<Vec<PlaneLimit>, NoMemory>
    ensures { IfOk result (λ bs. bs.items ≡ crossed from to limits.now) }
{
    let mut borders = Vec::new(alloc);
    add_crossed(&mut borders, limits, from, to)?;
    Ok(borders)
}

/// Adds those of the limits whose borders are crossed between the corners.
///
/// # Errors
/// Out of memory.
fn add_crossed(
    borders: &mut Vec<PlaneLimit>,
    limits: &[PlaneLimit],
    from: Corner,
    to: Corner,
) -> Result<(), NoMemory>
    ensures { OnOk result (borders.new.items ≡ borders.old.items ++ crossed from to limits.now) }
{
    for limit in limits {
        if limit.parts(from, to) {
            borders.push(*limit)?;
        }
    }
    Ok(())
}

/// Copies of the pieces that don't miss the way between the corners.
///
/// # Errors
/// Out of memory.
fn near_pieces(
    alloc: Global,
    pieces: &[PlanePiece],
    from: Corner,
    to: Corner,
) -> Result<Vec<PlanePiece>, NoMemory>
    ensures { IfOk result (λ ps. ps.items ≡ near_pieces from to pieces.now) }
{
    let mut near = Vec::new(alloc);
    for i in 0..pieces.len() {
        if !pieces[i].misses(from, to) {
            near.push(pieces[i].copy(alloc)?)?;
        }
    }
    Ok(near)
}
