//! How high pictures are.
ghost use Rattle.std.specs.Prelude.{◌≡◌, ◌<◌, ◌≤◌, ◌^◌, ◌-ℤ◌, ◌<ℤ◌, unsigned_abs};
ghost use Rattle.ded_svg.specs.Coordinates.{nearest};
ghost use Rattle.ded_axes.specs.Heights.{height_of, within_height};
ghost use Rattle.ded_num.specs.Length.{IsWithin};

use ded_polygon::PlaneWindow;

/// The height in units of a picture of this width, at which both axes have the same scale, to the nearest unit; but
/// more than an eighth of the width, and at most four times the width.
pub fn height_of(window: PlaneWindow, width: u32) -> u32
    requires { width ≤ 10000 }
    ensures { result ≡ height_of window width }
{
    let across = span(window.left, window.right);
    let down = span(window.bottom, window.top);
    within_height(width, nearest(u128::from(width) * down, across))
}

/// How far the first number is below the second.
fn span(low: i128, high: i128) -> u128
    requires low { IsWithin 62 low }
    requires high { IsWithin 62 high }
    requires order { low <ℤ high }
    ensures value { result ≡ unsigned_abs (high -ℤ low) }
    ensures short { result < 2 ^ 63 }
    ensures some { 0 < result }
{
    (high - low).unsigned_abs()
}

/// The whole number nearest to a fraction.
fn nearest(num: u128, den: u128) -> u128
    requires num { num < 2 ^ 127 }
    requires den { den < 2 ^ 127 }
    requires positive { 0 < den }
    ensures { result ≡ nearest num den }
{
    let rest = num % den;
    if den <= 2 * rest {
        num / den + 1
    } else {
        num / den
    }
}

/// The height nearest to this one that a picture may have.
fn within_height(width: u32, height: u128) -> u32
    requires { width ≤ 10000 }
    ensures { result ≡ within_height width height }
{
    let least = width / 8 + 1;
    let most = 4 * width;
    if height <= u128::from(least) {
        return least;
    }
    if u128::from(most) <= height {
        return most;
    }
    height as u32
}
