//! The corners of rows over two slots.
ghost use Rattle.std.specs.Prelude.{◌≡◌, ◌++◌, pos, ◌<ℤ◌, false, IfOk, OnOk, IsErrOf};
ghost use Rattle.ded_model.specs.declared.memory.Refused.TheVariants.{Wide};
ghost use Rattle.ded_model.specs.Point.{same_slot};
ghost use Rattle.ded_polygon.specs.Closures.{MentionOnly, AreBounded, AreInRange};
ghost use Rattle.ded_polygon.specs.Corners.{AreCorners, GoAround, IsOutline};
ghost use Rattle.ded_polygon.specs.Lists.{AreAllVertices, AreJoined};
ghost use Rattle.ded_polygon.specs.Vertices.{IsEnclosed};
ghost use Rattle.ded_polygon.specs.Windows.{window_rows, window_planes};

use crate::arranging::arrange;
use crate::corner::Corner;
use crate::reading::sides;
use crate::side::PlaneSide;
use crate::vertices::vertices;
use crate::window::PlaneWindow;
use ded_model::memory::{NoMemory, Refused};
use ded_model::row::Row;
use ded_model::slot::Slot;
use std::alloc::Global;

/// The corners of the rows: the points of their closure, that is, of each row with `<` read as `<=`, at which two rows
/// that are not parallel are equalities, each once. Where the rows are bounded they go around counterclockwise; else
/// their order is not told.
///
/// A row without coefficients is read as it stands, so that `0 < 0` is true and `1 <= 0` is false: rows that hold
/// nowhere may have corners, if their closure has some.
///
/// # Errors
/// `Wide` only where a number of a row is beyond the exact range; otherwise out of memory.
pub fn corners(alloc: Global, rows: &[Row], x: Slot, y: Slot) -> Result<Vec<Corner>, Refused>
    requires differ { same_slot x y ≡ false }
    requires only { MentionOnly x y rows.now }
    ensures corners { IfOk result (λ cs. AreCorners x y rows.now cs.items) }
    ensures around { AreBounded x y rows.now → IfOk result (λ cs. GoAround x y rows.now cs.items) }
    ensures outline { AreBounded x y rows.now → IfOk result (λ cs. IsOutline x y rows.now cs.items) }
    ensures wide { IsErrOf result Wide → AreInRange x y rows.now → ⊥ }
{
    let sides = sides(alloc, rows, x, y)?;
    Ok(arranged(alloc, &sides)?)
}

/// The corners of the rows and the four rows of the window together, counterclockwise.
///
/// # Errors
/// `Wide` only where a number of a row is beyond the exact range; otherwise out of memory.
pub fn cut(
    alloc: Global,
    rows: &[Row],
    x: Slot,
    y: Slot,
    window: PlaneWindow,
) -> Result<Vec<Corner>, Refused>
    requires differ { same_slot x y ≡ false }
    requires only { MentionOnly x y rows.now }
    ensures corners { IfOk result (λ cs. AreCorners x y (rows.now ++ window_rows x y window) cs.items) }
    ensures around { IfOk result (λ cs. GoAround x y (rows.now ++ window_rows x y window) cs.items) }
    ensures outline { IfOk result (λ cs. IsOutline x y (rows.now ++ window_rows x y window) cs.items) }
    ensures wide { IsErrOf result Wide → AreInRange x y rows.now → ⊥ }
{
    let mut sides = sides(alloc, rows, x, y)?;
    add_window(&mut sides, window)?;
    Ok(arranged(alloc, &sides)?)
}

/// Adds the half planes of the window.
fn add_window(sides: &mut Vec<PlaneSide>, window: PlaneWindow) -> Result<(), NoMemory>
    ensures sides { OnOk result (sides.new.items ≡ sides.old.items ++ window_planes window) }
    ensures positive { pos 0 <ℤ window.den }
{
    let [left, right, bottom, top] = window.sides();
    sides.push(left)?;
    sides.push(right)?;
    sides.push(bottom)?;
    sides.push(top)?;
    Ok(())
}

/// The vertices of half planes, in order.
fn arranged(alloc: Global, sides: &[PlaneSide]) -> Result<Vec<Corner>, NoMemory>
    ensures all { IfOk result (λ cs. AreAllVertices sides.now cs.items) }
    ensures joined { IfOk result (λ cs. IsEnclosed sides.now → AreJoined sides.now cs.items) }
{
    let mut found = vertices(alloc, sides)?;
    arrange(&mut found, sides);
    Ok(found)
}
