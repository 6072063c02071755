//! The index of the parts, by ranges in which their points within the window lie.
ghost use Rattle.std.specs.Prelude.{◌≡◌, ◌++◌, pos, ◌<ℤ◌, unsigned_abs, IfOk, OnOk};
ghost use Rattle.ded_polygon.specs.Plane.{Spot};
ghost use Rattle.ded_ranges.specs.Reaches.{IsAbove, IsBelow};
ghost use Rattle.ded_polygon.specs.Windows.{window_planes};
ghost use Rattle.ded_strokes.specs.Bounds.{closed_limits};
ghost use Rattle.ded_layers.specs.Indexed.{IsIndex, IsReachOf, closed, closed_of, LiesInAll};

use crate::part::Part;
use crate::query::{ceil_at, floor_at, x_of, y_of};
use crate::support::support;
use ded_hull::Hulls;
use ded_model::memory::NoMemory;
use ded_model::row::RowOp;
use ded_polygon::{Corner, PlaneWindow};
use ded_ranges::{End, Range, Reach};
use ded_strokes::{PlaneLimit, PlanePiece, window_limits};
use std::alloc::Global;

/// The index of the parts, each under its place: a part whose place is no `u32` isn't in it.
///
/// # Errors
/// Out of memory.
pub(crate) fn index_of(
    alloc: Global,
    parts: &[Part],
    window: PlaneWindow,
) -> Result<Hulls, NoMemory>
    ensures { IfOk result (λ h. IsIndex window parts.now h.entries) }
{
    let mut index = Hulls::new(alloc);
    for i in 0..parts.len() {
        let Ok(id) = u32::try_from(i) else {
            return Ok(index);
        };
        let reach = reach_of(alloc, &parts[i], window)?;
        index.insert(id, reach)?;
    }
    Ok(index)
}

/// Ranges in which the coordinates of each point of the part within the window lie.
///
/// # Errors
/// Out of memory.
fn reach_of(alloc: Global, part: &Part, window: PlaneWindow) -> Result<Reach, NoMemory>
    ensures { IfOk result (λ r. IsReachOf window part.now.piece r) }
{
    let planes = closed_planes(alloc, &part.piece, window)?;
    let [left, right, bottom, top] = window_limits(window);
    let x = Range {
        low: least_x(&planes, &part.corners, left),
        high: greatest_x(&planes, &part.corners, right),
    };
    let y = Range {
        low: least_y(&planes, &part.corners, bottom),
        high: greatest_y(&planes, &part.corners, top),
    };
    let mut reach = Reach::new(alloc);
    reach.push(x)?;
    reach.push(y)?;
    Ok(reach)
}

/// The half planes of the piece with their borders, and those of the window.
///
/// # Errors
/// Out of memory.
fn closed_planes(
    alloc: Global,
    piece: &PlanePiece,
    window: PlaneWindow,
) -> Result<Vec<PlaneLimit>, NoMemory>
    ensures { IfOk result (λ ps. ps.items ≡ closed_of piece.now ++ closed_limits (window_planes window)) }
{
    let mut planes = Vec::new(alloc);
    add_closed(&mut planes, piece.limits())?;
    let [left, right, bottom, top] = window_limits(window);
    planes.push(left)?;
    planes.push(right)?;
    planes.push(bottom)?;
    planes.push(top)?;
    Ok(planes)
}

/// Adds the half planes of the limits with their borders, two for an equality.
///
/// # Errors
/// Out of memory.
fn add_closed(planes: &mut Vec<PlaneLimit>, limits: &[PlaneLimit]) -> Result<(), NoMemory>
    ensures { OnOk result (planes.new.items ≡ planes.old.items ++ closed_of limits.now) }
{
    for limit in limits {
        add_closed_limit(planes, *limit)?;
    }
    Ok(())
}

/// Adds the half planes of the limit with their borders.
///
/// # Errors
/// Out of memory.
fn add_closed_limit(planes: &mut Vec<PlaneLimit>, limit: PlaneLimit) -> Result<(), NoMemory>
    ensures { OnOk result (planes.new.items ≡ planes.old.items ++ closed limit.op limit.plane) }
{
    let plane = limit.closed();
    planes.push(plane)?;
    match limit.op() {
        RowOp::Zero => planes.push(plane.opposite())?,
        RowOp::AtMost | RowOp::Below => {}
    }
    Ok(())
}

/// A low end for x, by a half plane to the right of a border that runs upwards.
fn least_x(planes: &[PlaneLimit], corners: &[Corner], left: PlaneLimit) -> End
    requires left { left.plane.a <ℤ pos 0 }
    requires upright { left.plane.b ≡ pos 0 }
    ensures { (m : Spot) → pos 0 <ℤ m.den → LiesInAll planes.now m → IsAbove result m.x (unsigned_abs m.den) }
{
    match support(planes, corners, left) {
        Some(corner) => floor_at(x_of(corner)),
        None => End::none(),
    }
}

/// A high end for x, by a half plane to the left of a border that runs upwards.
fn greatest_x(planes: &[PlaneLimit], corners: &[Corner], right: PlaneLimit) -> End
    requires right { pos 0 <ℤ right.plane.a }
    requires upright { right.plane.b ≡ pos 0 }
    ensures { (m : Spot) → pos 0 <ℤ m.den → LiesInAll planes.now m → IsBelow result m.x (unsigned_abs m.den) }
{
    match support(planes, corners, right) {
        Some(corner) => ceil_at(x_of(corner)),
        None => End::none(),
    }
}

/// A low end for y, by a half plane above a border that runs sideways.
fn least_y(planes: &[PlaneLimit], corners: &[Corner], bottom: PlaneLimit) -> End
    requires bottom { bottom.plane.b <ℤ pos 0 }
    requires flat { bottom.plane.a ≡ pos 0 }
    ensures { (m : Spot) → pos 0 <ℤ m.den → LiesInAll planes.now m → IsAbove result m.y (unsigned_abs m.den) }
{
    match support(planes, corners, bottom) {
        Some(corner) => floor_at(y_of(corner)),
        None => End::none(),
    }
}

/// A high end for y, by a half plane below a border that runs sideways.
fn greatest_y(planes: &[PlaneLimit], corners: &[Corner], top: PlaneLimit) -> End
    requires top { pos 0 <ℤ top.plane.b }
    requires flat { top.plane.a ≡ pos 0 }
    ensures { (m : Spot) → pos 0 <ℤ m.den → LiesInAll planes.now m → IsBelow result m.y (unsigned_abs m.den) }
{
    match support(planes, corners, top) {
        Some(corner) => ceil_at(y_of(corner)),
        None => End::none(),
    }
}
