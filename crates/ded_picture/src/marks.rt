//! The shapes of tuples.
ghost use Rattle.std.specs.Prelude.{◌≡◌, ◌++◌, map, IfOk, OnOk};
ghost use Rattle.ded_picture.specs.Sheets.{listed, mark_of, marks_of, point_on, shape_of};

use crate::parts::Shown;
use crate::sheet::{Sheet, point_on};
use ded_model::memory::NoMemory;
use ded_polygon::Corner;
use ded_svg::{ColouredShape, Corners, Point, Shape};
use std::alloc::Global;

/// The shapes of what is shown, in order.
///
/// # Errors
/// Out of memory.
pub fn marks_of(
    alloc: Global,
    sheet: &Sheet,
    list: &[Shown],
) -> Result<Vec<ColouredShape>, NoMemory>
    ensures { IfOk result (λ marks. marks.items ≡ marks_of sheet.now list.now) }
{
    let mut marks = Vec::new(alloc);
    for shown in list {
        add_mark(alloc, &mut marks, sheet, shown)?;
    }
    Ok(marks)
}

/// Adds the shape of a tuple, unless it has no corner within the window.
fn add_mark(
    alloc: Global,
    marks: &mut Vec<ColouredShape>,
    sheet: &Sheet,
    shown: &Shown,
) -> Result<(), NoMemory>
    ensures { OnOk result (marks.new.items ≡ marks.old.items ++ mark_of sheet.now shown.now) }
{
    let Some(shape) = shape_of(alloc, sheet, &shown.part.corners)? else {
        return Ok(());
    };
    marks.push(ColouredShape {
        shape,
        colour: shown.colour,
        title: shown.title.copy()?,
    })?;
    Ok(())
}

/// The shape with these corners, none where there is no corner.
fn shape_of(alloc: Global, sheet: &Sheet, corners: &[Corner]) -> Result<Option<Shape>, NoMemory>
    ensures { IfOk result (λ shape. listed shape ≡ shape_of sheet.now corners.now) }
{
    let Some((first, behind)) = corners.split_first() else {
        return Ok(None);
    };
    let Some((second, others)) = behind.split_first() else {
        return Ok(Some(Shape::Disc(point_on(sheet, *first))));
    };
    if others.is_empty() {
        return Ok(Some(Shape::Segment(point_on(sheet, *first), point_on(sheet, *second))));
    }
    Ok(Some(Shape::Polygon(Corners {
        list: points_on(alloc, sheet, corners)?,
    })))
}

/// Where the corners stand on the sheet.
fn points_on(alloc: Global, sheet: &Sheet, corners: &[Corner]) -> Result<Vec<Point>, NoMemory>
    ensures { IfOk result (λ points. points.items ≡ map (point_on sheet.now) corners.now) }
{
    let mut points = Vec::with_capacity(alloc, corners.len())?;
    for corner in corners {
        points.push(point_on(sheet, *corner))?;
    }
    Ok(points)
}
