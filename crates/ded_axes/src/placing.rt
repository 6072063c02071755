//! Where points of a window stand in a picture.
ghost use Rattle.std.specs.Prelude.{◌≡◌};
ghost use Rattle.ded_axes.specs.Places.{place, place_x, place_y};

use crate::number::{extent, rise};
use crate::parts::portion;
use ded_polygon::{Corner, PlaneWindow};
use ded_svg::{Coordinate, Point};

/// Where a corner stands in a picture of the window with this width and height in units. Each coordinate is the nearest
/// one in whole hundredths; a corner outside of the window stands on the border that is nearest to it.
pub fn place(window: PlaneWindow, width: u32, height: u32, corner: Corner) -> Point
    ensures { result ≡ place window width height corner }
{
    Point {
        x: place_x(window, width, corner),
        y: place_y(window, height, corner),
    }
}

/// How far to the right a corner stands.
fn place_x(window: PlaneWindow, width: u32, corner: Corner) -> Coordinate
    ensures { result ≡ place_x window width corner }
{
    let offset = rise(corner.x, corner.den, window.left, window.den);
    portion(offset, extent(window.left, window.right, corner.den), width)
}

/// How far downwards a corner stands.
fn place_y(window: PlaneWindow, height: u32, corner: Corner) -> Coordinate
    ensures { result ≡ place_y window height corner }
{
    let offset = rise(window.top, window.den, corner.y, corner.den);
    portion(
        offset,
        extent(window.bottom, window.top, corner.den),
        height,
    )
}
