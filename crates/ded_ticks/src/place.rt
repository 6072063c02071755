//! Places of values.
ghost use Rattle.std.specs.Prelude.{◌≡◌, ◌-ℤ◌};
ghost use Rattle.ded_num.specs.Length.{IsWithin};
ghost use Rattle.ded_ticks.specs.Scales.{offset_of, place_of};

use crate::scale::{Axis, Scale, extent};
use ded_axes::portion;
use ded_polygon::PlaneWindow;
use ded_svg::Coordinate;

/// Where a value is on its border.
pub(crate) fn place(scale: Scale, value: i128) -> Coordinate
    requires { IsWithin 64 value }
    ensures { result ≡ place_of scale value }
{
    portion(
        offset(scale.axis, scale.window, value),
        extent(scale.axis, scale.window),
        scale.units,
    )
}

/// How far a value is from the start of its border.
fn offset(axis: Axis, window: PlaneWindow, value: i128) -> i128
    requires { IsWithin 64 value }
    ensures { result ≡ offset_of axis window value }
{
    match axis {
        Axis::Lower => difference(value, window.left),
        Axis::Left => difference(window.top, value),
        Axis::Clock => difference(value, window.left),
    }
}

/// The difference.
fn difference(a: i128, b: i128) -> i128
    requires first { IsWithin 64 a }
    requires second { IsWithin 64 b }
    ensures { result ≡ a -ℤ b }
{
    a - b
}
