//! The vertices of half planes: where borders cross and that lies in all of them.
ghost use Rattle.std.specs.Prelude.{◌≡◌, ◌<◌, ◌↔◌, ℕ, pos, IsTrue, IfOk, OnOk, length};
ghost use Rattle.ded_polygon.specs.Plane.{In, level};
ghost use Rattle.ded_polygon.specs.Vertices.{LiesIn};
ghost use Rattle.ded_polygon.specs.Lists.{spot_in, side_in, AreVertices, AreAllVertices, Grows, HasCrossing};

use crate::corner::Corner;
use crate::side::PlaneSide;
use ded_model::memory::NoMemory;
use std::alloc::Global;

/// Each vertex once.
///
/// # Errors
/// Out of memory.
pub(crate) fn vertices(alloc: Global, sides: &[PlaneSide]) -> Result<Vec<Corner>, NoMemory>
    ensures { IfOk result (λ found. AreAllVertices sides.now found.items) }
{
    let mut found = Vec::new(alloc);
    for side in sides {
        add_on(&mut found, *side, sides)?;
    }
    Ok(found)
}

/// Adds the vertices on the border of the half plane.
fn add_on(found: &mut Vec<Corner>, side: PlaneSide, sides: &[PlaneSide]) -> Result<(), NoMemory>
    requires vertices { AreVertices sides.now found.old.items }
    requires inside { In side sides.now }
    ensures grows { OnOk result (Grows sides.now found.old.items found.new.items) }
    ensures has { OnOk result ((k : ℕ) → k < length sides.now
        → HasCrossing sides.now found.new.items side (side_in sides.now k)) }
{
    for other in sides {
        add_crossing(found, side, *other, sides)?;
    }
    Ok(())
}

/// Adds the point where the borders cross, if it is a new vertex.
fn add_crossing(
    found: &mut Vec<Corner>,
    side: PlaneSide,
    other: PlaneSide,
    sides: &[PlaneSide],
) -> Result<(), NoMemory>
    requires vertices { AreVertices sides.now found.old.items }
    requires inside { In side sides.now }
    requires other_inside { In other sides.now }
    ensures grows { OnOk result (Grows sides.now found.old.items found.new.items) }
    ensures has { OnOk result (HasCrossing sides.now found.new.items side other) }
{
    let Some(corner) = side.crossing(other) else {
        return Ok(());
    };
    if !lies_in(sides, corner) {
        return Ok(());
    }
    if has_on_both(found, side, other) {
        return Ok(());
    }
    found.push(corner)?;
    Ok(())
}

/// Whether the corner lies in each of the half planes.
fn lies_in(sides: &[PlaneSide], corner: Corner) -> bool
    ensures { IsTrue result ↔ LiesIn sides.now corner }
{
    for side in sides {
        if side.excludes(corner) {
            return false;
        }
    }
    true
}

/// Whether one of the corners is on both borders.
fn has_on_both(found: &[Corner], side: PlaneSide, other: PlaneSide) -> bool
    ensures { IsTrue result ↔ ((k : ℕ) × (k < length found.now) × (level side (spot_in found.now k) ≡ pos 0)
        × (level other (spot_in found.now k) ≡ pos 0)) }
{
    for corner in found {
        if side.touches(*corner) && other.touches(*corner) {
            return true;
        }
    }
    false
}
