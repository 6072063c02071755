//! Shapes and strokes.
ghost use Rattle.std.specs.Prelude.{◌≡◌, ◌++◌, codes, IfOk, OnOk};
ghost use Rattle.ded_svg.specs.Markup.{markup_text};
ghost use Rattle.ded_svg.specs.Palette.{ink};
ghost use Rattle.ded_svg.specs.Pictures.{corners_text, dashes_text, mark_markup, marks_markup, point_text};
ghost use Rattle.ded_svg.specs.Pictures.{segment_data, shape_data, shape_kind, shape_paint, stroke_markup};
ghost use Rattle.ded_svg.specs.Pictures.{strokes_markup};

use crate::coordinate::put_coordinate;
use crate::element::{put_attribute, put_painted};
use crate::palette::{ink, pattern_reference};
use crate::picture::{ColouredLine, ColouredShape, Line, Point, Shape};
use ded_dump::Text;
use ded_model::memory::NoMemory;
use ded_model::name::Name;
use std::alloc::Global;

/// Puts the shapes.
///
/// # Errors
/// Out of memory.
pub(crate) fn put_marks(
    alloc: Global,
    text: &mut Text,
    marks: &[ColouredShape],
) -> Result<(), NoMemory>
    ensures { OnOk result (text.new ≡ text.old ++ markup_text (marks_markup marks.now)) }
{
    for mark in marks {
        put_mark(alloc, text, mark)?;
    }
    Ok(())
}

/// Puts a shape.
fn put_mark(alloc: Global, text: &mut Text, mark: &ColouredShape) -> Result<(), NoMemory>
    ensures { OnOk result (text.new ≡ text.old ++ markup_text (mark_markup mark.now)) }
{
    let paint = shape_paint(alloc, &mark.shape, mark.colour)?;
    let data = shape_data(alloc, &mark.shape)?;
    put_painted(
        alloc,
        text,
        shape_kind(&mark.shape),
        paint.bytes.as_slice(),
        data.bytes.as_slice(),
        mark.title.bytes.as_slice(),
    )
}

/// How a shape is drawn.
fn shape_kind(shape: &Shape) -> &'static [u8]
    ensures { result.now ≡ shape_kind shape.now }
{
    match shape {
        Shape::Polygon(_) => b"area",
        Shape::Segment(_, _) => b"segment",
        Shape::Disc(_) => b"point",
    }
}

/// What a shape is filled and drawn with.
fn shape_paint(alloc: Global, shape: &Shape, colour: u32) -> Result<Name, NoMemory>
    ensures { IfOk result (λ n. n ≡ shape_paint shape.now colour) }
{
    match shape {
        Shape::Polygon(_) => pattern_reference(alloc, colour),
        Shape::Segment(_, _) | Shape::Disc(_) => inked(alloc, colour),
    }
}

/// The colour of this number, for lines.
fn inked(alloc: Global, colour: u32) -> Result<Name, NoMemory>
    ensures { IfOk result (λ n. n ≡ ink colour) }
{
    Ok(Name {
        bytes: ink(colour).to_vec(alloc)?,
    })
}

/// The outline of a shape.
fn shape_data(alloc: Global, shape: &Shape) -> Result<Name, NoMemory>
    ensures { IfOk result (λ n. n ≡ shape_data shape.now) }
{
    match shape {
        Shape::Polygon(corners) => polygon_data(alloc, &corners.list),
        Shape::Segment(start, end) => segment_data(alloc, *start, *end),
        Shape::Disc(point) => disc_data(alloc, *point),
    }
}

/// The outline of a polygon.
fn polygon_data(alloc: Global, corners: &[Point]) -> Result<Name, NoMemory>
    ensures { IfOk result (λ n. n ≡ corners_text (codes "M") corners.now ++ codes "Z") }
{
    let mut text = Text::new(alloc);
    put_corners(&mut text, b"M", corners)?;
    text.put(b"Z")?;
    Ok(text.into_line())
}

/// Puts corners, the first one after `lead`, each later one after `L`.
fn put_corners(text: &mut Text, lead: &[u8], corners: &[Point]) -> Result<(), NoMemory>
    ensures { OnOk result (text.new ≡ text.old ++ corners_text lead.now corners.now) }
{
    let mut lead = lead;
    for corner in corners {
        text.put(lead)?;
        put_point(text, *corner)?;
        lead = b"L";
    }
    Ok(())
}

/// Puts a point.
fn put_point(text: &mut Text, point: Point) -> Result<(), NoMemory>
    ensures { OnOk result (text.new ≡ text.old ++ point_text point) }
{
    put_coordinate(text, point.x)?;
    text.put(b",")?;
    put_coordinate(text, point.y)
}

/// A line between two points.
fn segment_data(alloc: Global, start: Point, end: Point) -> Result<Name, NoMemory>
    ensures { IfOk result (λ n. n ≡ segment_data start end) }
{
    let mut text = Text::new(alloc);
    text.put(b"M")?;
    put_point(&mut text, start)?;
    text.put(b"L")?;
    put_point(&mut text, end)?;
    Ok(text.into_line())
}

/// A disc around a point.
fn disc_data(alloc: Global, point: Point) -> Result<Name, NoMemory>
    ensures { IfOk result (λ n. n ≡ codes "M" ++ (point_text point ++ codes "m-3,0a3,3 0 1,0 6,0a3,3 0 1,0 -6,0z")) }
{
    let mut text = Text::new(alloc);
    text.put(b"M")?;
    put_point(&mut text, point)?;
    text.put(b"m-3,0a3,3 0 1,0 6,0a3,3 0 1,0 -6,0z")?;
    Ok(text.into_line())
}

/// Puts the strokes.
///
/// # Errors
/// Out of memory.
pub(crate) fn put_strokes(
    alloc: Global,
    text: &mut Text,
    strokes: &[ColouredLine],
) -> Result<(), NoMemory>
    ensures { OnOk result (text.new ≡ text.old ++ markup_text (strokes_markup strokes.now)) }
{
    for stroke in strokes {
        put_stroke(alloc, text, *stroke)?;
    }
    Ok(())
}

/// Puts a stroke.
fn put_stroke(alloc: Global, text: &mut Text, stroke: ColouredLine) -> Result<(), NoMemory>
    ensures { OnOk result (text.new ≡ text.old ++ markup_text (stroke_markup stroke)) }
{
    let data = segment_data(alloc, stroke.start, stroke.end)?;
    text.put(b"<path")?;
    put_attribute(alloc, text, b"class", b"stroke")?;
    put_attribute(alloc, text, b"stroke", ink(stroke.colour))?;
    put_attribute(alloc, text, b"stroke-dasharray", dashes(stroke.line))?;
    put_attribute(alloc, text, b"d", data.bytes.as_slice())?;
    text.put(b"></path>\n")
}

/// The dashes of a line.
fn dashes(line: Line) -> &'static [u8]
    ensures { result.now ≡ dashes_text line }
{
    match line {
        Line::Solid => b"none",
        Line::Dashed => b"5 4",
    }
}
