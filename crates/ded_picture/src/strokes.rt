//! The lines of the sides of all layers.
ghost use Rattle.std.specs.Prelude.{◌≡◌, ◌++◌, IfOk, OnOk};
ghost use Rattle.ded_picture.specs.Layers.{AddStrokes, AreLayersWithin, AreStrokes, layers_of};
ghost use Rattle.ded_picture.specs.Parts.{AreAllWithin};
ghost use Rattle.ded_picture.specs.Sheets.{line_of, stroke_of, strokes_of};

use crate::layers::{Layer, layers_of};
use crate::parts::Shown;
use crate::sheet::{Sheet, point_on};
use ded_atoms::following;
use ded_model::memory::NoMemory;
use ded_strokes::Stretch;
use ded_svg::{ColouredLine, Line};
use std::alloc::Global;

/// The lines of the sides of what is shown, colour after colour, of which there are so many.
///
/// # Errors
/// Out of memory.
pub fn strokes_of(
    alloc: Global,
    sheet: &Sheet,
    colours: usize,
    list: Vec<Shown>,
) -> Result<Vec<ColouredLine>, NoMemory>
    requires { AreAllWithin sheet.now.window list.items }
    ensures { IfOk result (λ strokes. AreStrokes sheet.now 0 (layers_of colours list.items) strokes.items) }
{
    let layers = layers_of(alloc, colours, list)?;
    let mut strokes = Vec::new(alloc);
    add_layers(alloc, sheet, 0, &layers, &mut strokes)?;
    Ok(strokes)
}

/// Adds the lines of layers, of which the first one has this colour.
fn add_layers(
    alloc: Global,
    sheet: &Sheet,
    colour: u32,
    layers: &[Layer],
    strokes: &mut Vec<ColouredLine>,
) -> Result<(), NoMemory>
    requires { AreLayersWithin sheet.now.window layers.now }
    ensures { OnOk result (AddStrokes sheet.now colour layers.now strokes.old.items strokes.new.items) }
{
    let mut colour = colour;
    for layer in layers {
        let stretches = layer.lines(alloc, sheet.window)?;
        add_strokes(strokes, sheet, colour, &stretches)?;
        colour = following(colour)?;
    }
    Ok(())
}

/// Adds lines in a colour.
fn add_strokes(
    strokes: &mut Vec<ColouredLine>,
    sheet: &Sheet,
    colour: u32,
    stretches: &[Stretch],
) -> Result<(), NoMemory>
    ensures { OnOk result (strokes.new.items ≡ strokes.old.items ++ strokes_of sheet.now colour stretches.now) }
{
    for stretch in stretches {
        strokes.push(stroke_of(sheet, colour, *stretch))?;
    }
    Ok(())
}

/// A line in a colour.
fn stroke_of(sheet: &Sheet, colour: u32, stretch: Stretch) -> ColouredLine
    ensures { result ≡ stroke_of sheet.now colour stretch }
{
    ColouredLine {
        start: point_on(sheet, stretch.from),
        end: point_on(sheet, stretch.to),
        line: line_of(stretch.stroke),
        colour,
    }
}

/// How a stretch is drawn.
fn line_of(stroke: ded_strokes::Stroke) -> Line
    ensures { result ≡ line_of stroke }
{
    match stroke {
        ded_strokes::Stroke::Seam | ded_strokes::Stroke::Solid => Line::Solid,
        ded_strokes::Stroke::Dashed => Line::Dashed,
    }
}
