//! The sheet that a picture is drawn on.
ghost use Rattle.std.specs.Prelude.{◌≡◌};
ghost use Rattle.ded_picture.specs.Sheets.{point_on};

use ded_axes::place;
use ded_polygon::{Corner, PlaneWindow};
use ded_svg::Point;

/// What is seen of the plane, and how wide and high it is drawn, in units.
#[derive(Clone, Copy, Debug)]
pub struct Sheet {
    pub window: PlaneWindow,
    pub width: u32,
    pub height: u32,
}

/// Where a corner stands on the sheet.
pub(crate) fn point_on(sheet: &Sheet, corner: Corner) -> Point
    ensures { result ≡ point_on sheet.now corner }
{
    place(sheet.window, sheet.width, sheet.height, corner)
}
