//! Whole pictures.
ghost use Rattle.std.specs.Prelude.{◌≡◌, ◌++◌, ◌+◌, IfOk, OnOk};
ghost use Rattle.ded_svg.specs.Markup.{markup_text};
ghost use Rattle.ded_svg.specs.Pictures.{box_text, boxed_markup, content_markup, definitions_markup};
ghost use Rattle.ded_svg.specs.Pictures.{description_markup, drawn_markup, lines_markup, style_text, svg_text};

use crate::around::{put_around, put_patterns};
use crate::coordinate::put_number;
use crate::element::{put_attribute, put_words};
use crate::escape::put_escaped;
use crate::mark::{put_marks, put_strokes};
use crate::picture::{LegendEntry, Picture};
use ded_dump::Text;
use ded_model::memory::NoMemory;
use ded_model::name::Name;
use std::alloc::Global;

/// The text of a picture, as SVG.
///
/// # Errors
/// Out of memory.
pub fn picture_text(alloc: Global, picture: &Picture) -> Result<Name, NoMemory>
    ensures { IfOk result (λ t. t ≡ svg_text picture.now) }
{
    let extent = box_text(alloc, picture)?;
    let mut text = Text::new(alloc);
    put_boxed(alloc, &mut text, extent.bytes.as_slice(), picture)?;
    Ok(text.into_line())
}

/// Puts the picture in a box.
fn put_boxed(
    alloc: Global,
    text: &mut Text,
    extent: &[u8],
    picture: &Picture,
) -> Result<(), NoMemory>
    ensures { OnOk result (text.new ≡ text.old ++ markup_text (boxed_markup extent.now picture.now)) }
{
    text.put(b"<svg")?;
    put_attribute(alloc, text, b"xmlns", b"http://www.w3.org/2000/svg")?;
    put_attribute(alloc, text, b"role", b"img")?;
    put_attribute(alloc, text, b"viewBox", extent)?;
    text.put(b">")?;
    put_content(alloc, text, picture)?;
    text.put(b"</svg>\n")
}

/// How far the picture goes, with its labels and its legend.
fn box_text(alloc: Global, picture: &Picture) -> Result<Name, NoMemory>
    ensures { IfOk result (λ n. n ≡ box_text picture.now) }
{
    let mut text = Text::new(alloc);
    text.put(b"-64 -16 ")?;
    put_number(&mut text, u128::from(picture.width) + 80)?;
    text.put(b" ")?;
    let entries = picture.legend.len() as u128;
    put_number(&mut text, u128::from(picture.height) + (80 + 24 * entries))?;
    Ok(text.into_line())
}

/// Puts all that is in the picture.
fn put_content(alloc: Global, text: &mut Text, picture: &Picture) -> Result<(), NoMemory>
    ensures { OnOk result (text.new ≡ text.old ++ markup_text (content_markup picture.now)) }
{
    put_words(alloc, text, b"title", picture.title.bytes.as_slice())?;
    put_description(alloc, text, &picture.description)?;
    put_words(alloc, text, b"style", style())?;
    put_definitions(alloc, text, &picture.legend)?;
    put_drawn(alloc, text, picture)
}

/// Puts the description.
fn put_description(alloc: Global, text: &mut Text, lines: &[Name]) -> Result<(), NoMemory>
    ensures { OnOk result (text.new ≡ text.old ++ markup_text (description_markup lines.now)) }
{
    text.put(b"<desc>")?;
    put_lines(alloc, text, lines)?;
    text.put(b"</desc>\n")
}

/// Puts what shapes refer to.
fn put_definitions(alloc: Global, text: &mut Text, legend: &[LegendEntry]) -> Result<(), NoMemory>
    ensures { OnOk result (text.new ≡ text.old ++ markup_text (definitions_markup legend.now)) }
{
    text.put(b"<defs>")?;
    put_patterns(alloc, text, legend)?;
    text.put(b"</defs>\n")
}

/// Puts lines of text.
fn put_lines(alloc: Global, text: &mut Text, lines: &[Name]) -> Result<(), NoMemory>
    ensures { OnOk result (text.new ≡ text.old ++ markup_text (lines_markup lines.now)) }
{
    for line in lines {
        put_escaped(alloc, text, line.bytes.as_slice())?;
        text.put(b"\n")?;
    }
    Ok(())
}

/// How classes of elements are drawn.
#[tactic(auto, unfolding(crate::specs::Pictures::style_text))]
fn style() -> &'static [u8]
    ensures { result.now ≡ style_text }
{
    b".area{stroke-width:.6;stroke-linejoin:round}.segment{fill:none;stroke-width:2}.stroke{fill:none;stroke-width:1.5}.axis{fill:none;stroke:#000;stroke-width:1}.hatch{fill:none;stroke:#000;stroke-width:.5;stroke-opacity:.5}text{font:12px sans-serif}.below{text-anchor:middle}.left{text-anchor:end;dominant-baseline:middle}"
}

/// Puts the shapes, the strokes, the axes and the legend.
fn put_drawn(alloc: Global, text: &mut Text, picture: &Picture) -> Result<(), NoMemory>
    ensures { OnOk result (text.new ≡ text.old ++ markup_text (drawn_markup picture.now)) }
{
    put_marks(alloc, text, &picture.marks)?;
    put_strokes(alloc, text, &picture.strokes)?;
    put_around(alloc, text, picture)
}
