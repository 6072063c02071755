//! What is seen of the plane.
ghost use Rattle.std.specs.Prelude.{IfOk, IsErrOf, OnOk};
ghost use Rattle.ded_model.specs.declared.memory.Refused.TheVariants.{Wide};
ghost use Rattle.ded_polygon.specs.Corners.{AreCorners};
ghost use Rattle.ded_picture.specs.Parts.{IsTooLong};
ghost use Rattle.ded_picture.specs.Windowing.{AddsCorners, AddsFor, AreCornersIn, IsWindow};

use ded_axes::window_around;
use ded_figures::{Figure, Sight};
use ded_model::memory::{NoMemory, Refused};
use ded_polygon::{Corner, PlaneWindow, corners};
use std::alloc::{AllocError, Global};

/// The window that is asked for, or the one around all corners where none is.
///
/// # Errors
/// Out of memory.
pub fn window_of(
    alloc: Global,
    asked: Option<PlaneWindow>,
    sights: &[Sight],
) -> Result<PlaneWindow, NoMemory>
    ensures { IfOk result (IsWindow asked sights.now) }
{
    match asked {
        Some(window) => Ok(window),
        None => {
            let found = corners_of(alloc, sights)?;
            Ok(window_around(&found))
        }
    }
}

/// The corners of all figures.
///
/// # Errors
/// Out of memory.
fn corners_of(alloc: Global, sights: &[Sight]) -> Result<Vec<Corner>, NoMemory>
    ensures { IfOk result (λ found. AreCornersIn sights.now found.items) }
{
    let mut found = Vec::new(alloc);
    for sight in sights {
        add_corners_of(alloc, &mut found, sight)?;
    }
    Ok(found)
}

/// Adds the corners of a figure, where there is one.
fn add_corners_of(alloc: Global, found: &mut Vec<Corner>, sight: &Sight) -> Result<(), NoMemory>
    ensures { OnOk result (AddsFor sight.now found.old.items found.new.items) }
{
    match sight {
        Sight::Seen(figure) => add_corners(alloc, found, figure),
        Sight::Nowhere | Sight::Wide => Ok(()),
    }
}

/// Adds the corners of a figure, unless it is too long.
fn add_corners(alloc: Global, found: &mut Vec<Corner>, figure: &Figure) -> Result<(), NoMemory>
    ensures { OnOk result (AddsCorners figure.now found.old.items found.new.items) }
{
    match corners_in(alloc, figure) {
        Ok(more) => {
            found.extend_from_slice(&more)?;
            Ok(())
        }
        Err(Refused::Wide) => Ok(()),
        Err(Refused::Memory) => Err(AllocError),
    }
}

/// The corners of a figure.
///
/// # Errors
/// `Wide` only where a number of a row is beyond the exact range; otherwise out of memory.
fn corners_in(alloc: Global, figure: &Figure) -> Result<Vec<Corner>, Refused>
    ensures corners { IfOk result (λ cs. AreCorners figure.now.axes.x figure.now.axes.y figure.now.rows cs.items) }
    ensures wide { IsErrOf result Wide → IsTooLong figure.now }
{
    corners(alloc, &figure.rows, figure.axes.x, figure.axes.y)
}
