//! Axes and the legend.
ghost use Rattle.std.specs.Prelude.{◌≡◌, ◌<◌, ◌++◌, ◌+◌, ◌*◌, IfOk, OnOk};
ghost use Rattle.ded_svg.specs.Markup.{markup_text};
ghost use Rattle.ded_svg.specs.Pictures.{around_markup, entry_markup, entry_top, entry_words_markup, filled_markup};
ghost use Rattle.ded_svg.specs.Pictures.{frame_data, left_tick_data, left_tick_markup, left_ticks_markup};
ghost use Rattle.ded_svg.specs.Pictures.{legend_markup, lower_tick_data, lower_tick_markup, lower_ticks_markup};
ghost use Rattle.ded_svg.specs.Pictures.{pattern_markup, patterns_markup, swatch_markup, tile_content, tile_markup};

use crate::coordinate::{Coordinate, put_coordinate, put_number};
use crate::element::{
    coordinate_alone, number_alone, number_between, put_attribute, put_label, put_painted, put_path,
};
use crate::palette::{hatch, pattern_name, pattern_reference, tint};
use crate::picture::{LegendEntry, Picture, Tick};
use ded_dump::Text;
use ded_model::memory::NoMemory;
use ded_model::name::Name;
use std::alloc::Global;

/// Puts the axes and the legend of a picture.
///
/// # Errors
/// Out of memory.
pub(crate) fn put_around(alloc: Global, text: &mut Text, picture: &Picture) -> Result<(), NoMemory>
    ensures { OnOk result (text.new ≡ text.old ++ markup_text (around_markup picture.now)) }
{
    let frame = frame_data(alloc, picture.width, picture.height)?;
    put_path(alloc, text, b"axis", frame.bytes.as_slice())?;
    put_lower_ticks(alloc, text, picture.height, &picture.lower_ticks)?;
    put_left_ticks(alloc, text, &picture.left_ticks)?;
    put_legend(alloc, text, picture.height, &picture.legend)
}

/// The left and the lower border.
fn frame_data(alloc: Global, width: u32, height: u32) -> Result<Name, NoMemory>
    ensures { IfOk result (λ n. n ≡ frame_data width height) }
{
    let mut text = Text::new(alloc);
    text.put(b"M0,0V")?;
    put_number(&mut text, u128::from(height))?;
    text.put(b"H")?;
    put_number(&mut text, u128::from(width))?;
    Ok(text.into_line())
}

/// Puts the ticks of the lower border.
fn put_lower_ticks(
    alloc: Global,
    text: &mut Text,
    height: u32,
    ticks: &[Tick],
) -> Result<(), NoMemory>
    ensures { OnOk result (text.new ≡ text.old ++ markup_text (lower_ticks_markup height ticks.now)) }
{
    for tick in ticks {
        put_lower_tick(alloc, text, height, tick)?;
    }
    Ok(())
}

/// Puts a tick of the lower border, and its label below.
fn put_lower_tick(alloc: Global, text: &mut Text, height: u32, tick: &Tick) -> Result<(), NoMemory>
    ensures { OnOk result (text.new ≡ text.old ++ markup_text (lower_tick_markup height tick.now)) }
{
    let data = lower_tick_data(alloc, height, tick.place)?;
    let x = coordinate_alone(alloc, tick.place)?;
    let y = number_alone(alloc, u128::from(height) + 20)?;
    put_path(alloc, text, b"axis", data.bytes.as_slice())?;
    put_label(
        alloc,
        text,
        b"below",
        x.bytes.as_slice(),
        y.bytes.as_slice(),
        tick.label.bytes.as_slice(),
    )
}

/// The line of a tick of the lower border.
fn lower_tick_data(alloc: Global, height: u32, place: Coordinate) -> Result<Name, NoMemory>
    ensures { IfOk result (λ n. n ≡ lower_tick_data height place) }
{
    let mut text = Text::new(alloc);
    text.put(b"M")?;
    put_coordinate(&mut text, place)?;
    text.put(b",")?;
    put_number(&mut text, u128::from(height))?;
    text.put(b"v6")?;
    Ok(text.into_line())
}

/// Puts the ticks of the left border.
fn put_left_ticks(alloc: Global, text: &mut Text, ticks: &[Tick]) -> Result<(), NoMemory>
    ensures { OnOk result (text.new ≡ text.old ++ markup_text (left_ticks_markup ticks.now)) }
{
    for tick in ticks {
        put_left_tick(alloc, text, tick)?;
    }
    Ok(())
}

/// Puts a tick of the left border, and its label to the left.
fn put_left_tick(alloc: Global, text: &mut Text, tick: &Tick) -> Result<(), NoMemory>
    ensures { OnOk result (text.new ≡ text.old ++ markup_text (left_tick_markup tick.now)) }
{
    let data = left_tick_data(alloc, tick.place)?;
    let y = coordinate_alone(alloc, tick.place)?;
    put_path(alloc, text, b"axis", data.bytes.as_slice())?;
    put_label(
        alloc,
        text,
        b"left",
        b"-10",
        y.bytes.as_slice(),
        tick.label.bytes.as_slice(),
    )
}

/// The line of a tick of the left border.
fn left_tick_data(alloc: Global, place: Coordinate) -> Result<Name, NoMemory>
    ensures { IfOk result (λ n. n ≡ left_tick_data place) }
{
    let mut text = Text::new(alloc);
    text.put(b"M0,")?;
    put_coordinate(&mut text, place)?;
    text.put(b"h-6")?;
    Ok(text.into_line())
}

/// Puts the patterns of the colours of a legend.
///
/// # Errors
/// Out of memory.
pub(crate) fn put_patterns(
    alloc: Global,
    text: &mut Text,
    legend: &[LegendEntry],
) -> Result<(), NoMemory>
    ensures { OnOk result (text.new ≡ text.old ++ markup_text (patterns_markup legend.now)) }
{
    for entry in legend {
        put_pattern(alloc, text, entry.colour)?;
    }
    Ok(())
}

/// Puts the pattern of areas of a colour.
fn put_pattern(alloc: Global, text: &mut Text, colour: u32) -> Result<(), NoMemory>
    ensures { OnOk result (text.new ≡ text.old ++ markup_text (pattern_markup colour)) }
{
    let name = pattern_name(alloc, colour)?;
    put_tile(alloc, text, name.bytes.as_slice(), colour)
}

/// Puts a pattern of areas under a name.
fn put_tile(alloc: Global, text: &mut Text, name: &[u8], colour: u32) -> Result<(), NoMemory>
    ensures { OnOk result (text.new ≡ text.old ++ markup_text (tile_markup name.now colour)) }
{
    text.put(b"<pattern")?;
    put_attribute(alloc, text, b"id", name)?;
    put_attribute(alloc, text, b"width", b"8")?;
    put_attribute(alloc, text, b"height", b"8")?;
    put_attribute(alloc, text, b"patternUnits", b"userSpaceOnUse")?;
    text.put(b">")?;
    put_tile_content(alloc, text, colour)?;
    text.put(b"</pattern>\n")
}

/// Puts the ground and the hatch of a pattern.
fn put_tile_content(alloc: Global, text: &mut Text, colour: u32) -> Result<(), NoMemory>
    ensures { OnOk result (text.new ≡ text.old ++ markup_text (tile_content colour)) }
{
    put_filled(alloc, text, tint(colour), b"M0,0H8V8H0Z")?;
    put_path(alloc, text, b"hatch", hatch(colour))
}

/// Puts a path that is filled and not drawn.
fn put_filled(alloc: Global, text: &mut Text, paint: &[u8], outline: &[u8]) -> Result<(), NoMemory>
    ensures { OnOk result (text.new ≡ text.old ++ markup_text (filled_markup paint.now outline.now)) }
{
    text.put(b"<path")?;
    put_attribute(alloc, text, b"fill", paint)?;
    put_attribute(alloc, text, b"d", outline)?;
    text.put(b"></path>\n")
}

/// Puts the entries of a legend below a picture of this height.
fn put_legend(
    alloc: Global,
    text: &mut Text,
    height: u32,
    legend: &[LegendEntry],
) -> Result<(), NoMemory>
    ensures { OnOk result (text.new ≡ text.old ++ markup_text (legend_markup height 0 legend.now)) }
{
    for (number, entry) in legend.iter().enumerate() {
        put_entry(alloc, text, entry_top(height, number), entry)?;
    }
    Ok(())
}

/// Where the entry of this number begins.
fn entry_top(height: u32, number: usize) -> u128
    ensures { result ≡ entry_top height number }
{
    u128::from(height) + (40 + 24 * number as u128)
}

/// Puts an entry that begins at this height.
fn put_entry(alloc: Global, text: &mut Text, top: u128, entry: &LegendEntry) -> Result<(), NoMemory>
    requires { top < 1000000000000000000000000 }
    ensures { OnOk result (text.new ≡ text.old ++ markup_text (entry_markup top entry.now)) }
{
    put_swatch(alloc, text, top, entry)?;
    put_entry_words(alloc, text, top, entry)
}

/// Puts a square with the pattern of an entry.
fn put_swatch(
    alloc: Global,
    text: &mut Text,
    top: u128,
    entry: &LegendEntry,
) -> Result<(), NoMemory>
    ensures { OnOk result (text.new ≡ text.old ++ markup_text (swatch_markup top entry.now)) }
{
    let paint = pattern_reference(alloc, entry.colour)?;
    let data = number_between(alloc, b"M0,", top, b"h16v16h-16z")?;
    put_painted(
        alloc,
        text,
        b"area",
        paint.bytes.as_slice(),
        data.bytes.as_slice(),
        entry.words.bytes.as_slice(),
    )
}

/// Puts the words of an entry.
fn put_entry_words(
    alloc: Global,
    text: &mut Text,
    top: u128,
    entry: &LegendEntry,
) -> Result<(), NoMemory>
    requires { top < 1000000000000000000000000 }
    ensures { OnOk result (text.new ≡ text.old ++ markup_text (entry_words_markup top entry.now)) }
{
    let y = number_alone(alloc, top + 13)?;
    put_label(
        alloc,
        text,
        b"entry",
        b"24",
        y.bytes.as_slice(),
        entry.words.bytes.as_slice(),
    )
}
