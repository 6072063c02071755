//! Scales along the borders of a picture.
ghost use Rattle.std.specs.Prelude.{◌≡◌, pos, ◌<ℤ◌, ◌-ℤ◌};
ghost use Rattle.ded_num.specs.Length.{IsWithin};
ghost use Rattle.ded_ticks.specs.Scales.{extent_of, high_of, low_of};

use ded_polygon::PlaneWindow;

/// Which border a scale is along, and what its values are.
#[derive(Clone, Copy, Debug)]
pub(crate) enum Axis {
    /// Numbers along the lower border.
    Lower,
    /// Numbers along the left border.
    Left,
    /// Minutes along the lower border, which are read as times.
    Clock,
}

/// A scale along a border of a picture of a window. The border is so many units long.
#[derive(Clone, Copy, Debug)]
pub(crate) struct Scale {
    pub axis: Axis,
    pub window: PlaneWindow,
    pub units: u32,
}

/// The least value.
pub(crate) fn low(axis: Axis, window: PlaneWindow) -> i128
    ensures value { result ≡ low_of axis window }
    ensures short { IsWithin 62 result }
{
    match axis {
        Axis::Lower => window.left,
        Axis::Left => window.bottom,
        Axis::Clock => window.left,
    }
}

/// The greatest value.
pub(crate) fn high(axis: Axis, window: PlaneWindow) -> i128
    ensures value { result ≡ high_of axis window }
    ensures short { IsWithin 62 result }
{
    match axis {
        Axis::Lower => window.right,
        Axis::Left => window.top,
        Axis::Clock => window.right,
    }
}

/// How far the least value is below the greatest one.
pub(crate) fn extent(axis: Axis, window: PlaneWindow) -> i128
    ensures value { result ≡ extent_of axis window }
    ensures short { IsWithin 63 result }
    ensures positive { pos 0 <ℤ result }
{
    match axis {
        Axis::Lower => span(window.left, window.right),
        Axis::Left => span(window.bottom, window.top),
        Axis::Clock => span(window.left, window.right),
    }
}

/// How far the first number is below the second.
fn span(low: i128, high: i128) -> i128
    requires low { IsWithin 62 low }
    requires high { IsWithin 62 high }
    requires order { low <ℤ high }
    ensures value { result ≡ high -ℤ low }
    ensures short { IsWithin 63 result }
    ensures positive { pos 0 <ℤ result }
{
    high - low
}
