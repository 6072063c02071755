//! The drawing of what replies tell.
ghost use Rattle.std.specs.Prelude.{◌≡◌, ◌≤◌, codes, map, IfOk};
ghost use Rattle.ded_session.specs.Answered.{reply_form};
ghost use Rattle.ded_drawing.specs.Drawings.{IsDrawing, border_ticks};

use crate::description::description_of;
use crate::sighting::sights_of;
use crate::style::Style;
use ded_axes::height_of;
use ded_model::memory::NoMemory;
use ded_model::name::Name;
use ded_picture::{Sheet, labels_of, legend_of, marks_of, parts_of, strokes_of, window_of};
use ded_session::Reply;
use ded_svg::{Picture, Tick};
use ded_ticks::{clock_ticks, left_ticks, lower_ticks};
use std::alloc::Global;

/// What every picture is called.
const TITLE: &[u8] = b"Answers";

/// A picture, and whether some tuple isn't drawn as its numbers are too long.
#[derive(Drop)]
pub struct Drawing {
    pub picture: Picture,
    pub wide: bool,
}

/// The drawing of what the replies tell.
///
/// # Errors
/// Out of memory.
pub fn drawing_of(alloc: Global, style: &Style, replies: &[Reply]) -> Result<Drawing, NoMemory>
    requires { style.now.width ≤ 10000 }
    ensures { IfOk result (IsDrawing style.now (map reply_form replies.now)) }
{
    let sights = sights_of(alloc, &style.look, replies)?;
    let labels = labels_of(alloc, &sights)?;
    let window = window_of(alloc, style.window, &sights)?;
    let height = height_of(window, style.width);
    let sheet = Sheet {
        window,
        width: style.width,
        height,
    };
    let parts = parts_of(alloc, &sights, &labels, window)?;
    let description = description_of(alloc, &style.look, parts.list.len(), parts.wide, replies)?;
    let marks = marks_of(alloc, &sheet, &parts.list)?;
    let strokes = strokes_of(alloc, &sheet, labels.len(), parts.list)?;
    Ok(Drawing {
        picture: Picture {
            width: style.width,
            height,
            title: title(alloc)?,
            description,
            marks,
            strokes,
            lower_ticks: border_ticks(alloc, &sheet, style.has_clock)?,
            left_ticks: left_ticks(alloc, window, height)?,
            legend: legend_of(alloc, &labels)?,
        },
        wide: parts.wide > 0,
    })
}

/// What every picture is called, as a copy.
fn title(alloc: Global) -> Result<Name, NoMemory>
    ensures { IfOk result (λ n. n ≡ codes "Answers") }
{
    Ok(Name {
        bytes: TITLE.to_vec(alloc)?,
    })
}

/// The ticks of the lower border.
fn border_ticks(alloc: Global, sheet: &Sheet, has_clock: bool) -> Result<Vec<Tick>, NoMemory>
    ensures { IfOk result (λ ticks. ticks.items ≡ border_ticks sheet.now has_clock) }
{
    if has_clock {
        return clock_ticks(alloc, sheet.window, sheet.width);
    }
    lower_ticks(alloc, sheet.window, sheet.width)
}
