//! Elements of markup.
ghost use Rattle.std.specs.Prelude.{◌≡◌, ◌++◌, IfOk, OnOk};
ghost use Rattle.ded_print.specs.Numbers.{number_text};
ghost use Rattle.ded_svg.specs.Coordinates.{coordinate_text};
ghost use Rattle.ded_svg.specs.Markup.{attribute_text, markup_text};
ghost use Rattle.ded_svg.specs.Pictures.{label_markup, painted_markup, path_markup, words_markup};

use crate::coordinate::{Coordinate, put_coordinate, put_number};
use crate::escape::put_escaped;
use ded_dump::Text;
use ded_model::memory::NoMemory;
use ded_model::name::Name;
use std::alloc::Global;

/// Puts an attribute behind a blank.
///
/// # Errors
/// Out of memory.
#[tactic(auto, unfolding(crate::specs::Markup::attribute_text))]
pub(crate) fn put_attribute(
    alloc: Global,
    text: &mut Text,
    name: &[u8],
    value: &[u8],
) -> Result<(), NoMemory>
    ensures { OnOk result (text.new ≡ text.old ++ attribute_text name.now value.now) }
{
    text.put(b" ")?;
    text.put(name)?;
    text.put(b"=\"")?;
    put_escaped(alloc, text, value)?;
    text.put(b"\"")
}

/// Puts an element of a text alone.
///
/// # Errors
/// Out of memory.
pub(crate) fn put_words(
    alloc: Global,
    text: &mut Text,
    name: &[u8],
    words: &[u8],
) -> Result<(), NoMemory>
    ensures { OnOk result (text.new ≡ text.old ++ markup_text (words_markup name.now words.now)) }
{
    text.put(b"<")?;
    text.put(name)?;
    text.put(b">")?;
    put_escaped(alloc, text, words)?;
    text.put(b"</")?;
    text.put(name)?;
    text.put(b">\n")
}

/// Puts a path that is painted in one colour, with a title.
///
/// # Errors
/// Out of memory.
pub(crate) fn put_painted(
    alloc: Global,
    text: &mut Text,
    kind: &[u8],
    paint: &[u8],
    outline: &[u8],
    title: &[u8],
) -> Result<(), NoMemory>
    ensures { OnOk result (text.new ≡ text.old ++ markup_text
        (painted_markup kind.now paint.now outline.now title.now)) }
{
    text.put(b"<path")?;
    put_attribute(alloc, text, b"class", kind)?;
    put_attribute(alloc, text, b"fill", paint)?;
    put_attribute(alloc, text, b"stroke", paint)?;
    put_attribute(alloc, text, b"d", outline)?;
    text.put(b">")?;
    put_words(alloc, text, b"title", title)?;
    text.put(b"</path>\n")
}

/// Puts a path without a colour of its own.
///
/// # Errors
/// Out of memory.
pub(crate) fn put_path(
    alloc: Global,
    text: &mut Text,
    kind: &[u8],
    outline: &[u8],
) -> Result<(), NoMemory>
    ensures { OnOk result (text.new ≡ text.old ++ markup_text (path_markup kind.now outline.now)) }
{
    text.put(b"<path")?;
    put_attribute(alloc, text, b"class", kind)?;
    put_attribute(alloc, text, b"d", outline)?;
    text.put(b"></path>\n")
}

/// Puts a text at a place.
///
/// # Errors
/// Out of memory.
pub(crate) fn put_label(
    alloc: Global,
    text: &mut Text,
    kind: &[u8],
    x: &[u8],
    y: &[u8],
    words: &[u8],
) -> Result<(), NoMemory>
    ensures { OnOk result (text.new ≡ text.old ++ markup_text (label_markup kind.now x.now y.now words.now)) }
{
    text.put(b"<text")?;
    put_attribute(alloc, text, b"class", kind)?;
    put_attribute(alloc, text, b"x", x)?;
    put_attribute(alloc, text, b"y", y)?;
    text.put(b">")?;
    put_escaped(alloc, text, words)?;
    text.put(b"</text>\n")
}

/// The text of a natural number between two others.
///
/// # Errors
/// Out of memory.
pub(crate) fn number_between(
    alloc: Global,
    before: &[u8],
    number: u128,
    after: &[u8],
) -> Result<Name, NoMemory>
    ensures { IfOk result (λ n. n ≡ before.now ++ (number_text number ++ after.now)) }
{
    let mut text = Text::new(alloc);
    text.put(before)?;
    put_number(&mut text, number)?;
    text.put(after)?;
    Ok(text.into_line())
}

/// The text of a natural number.
///
/// # Errors
/// Out of memory.
pub(crate) fn number_alone(alloc: Global, number: u128) -> Result<Name, NoMemory>
    ensures { IfOk result (λ n. n ≡ number_text number) }
{
    let mut text = Text::new(alloc);
    put_number(&mut text, number)?;
    Ok(text.into_line())
}

/// The text of a coordinate.
///
/// # Errors
/// Out of memory.
pub(crate) fn coordinate_alone(alloc: Global, coordinate: Coordinate) -> Result<Name, NoMemory>
    ensures { IfOk result (λ n. n ≡ coordinate_text coordinate.hundredths) }
{
    let mut text = Text::new(alloc);
    put_coordinate(&mut text, coordinate)?;
    Ok(text.into_line())
}
