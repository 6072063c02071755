//! The default window of a picture.
ghost use Rattle.std.specs.Prelude.{◌≡◌, ◌≤◌, ◌<◌, ◌^◌, ◌-◌, pos, ◌<ℤ◌};
ghost use Rattle.ded_axes.specs.Around.{exponent, exponent_from, extent_of, frame_around, framed, margin, spans};
ghost use Rattle.ded_axes.specs.Around.{usual_frame, widened};
ghost use Rattle.ded_num.specs.Length.{IsWithin};

use crate::power::power;
use crate::span::{NumberSpan, Reaches, greater, spans};
use ded_polygon::{Corner, PlaneWindow};

/// The window around corners: a little more than all of them. A corner with a coordinate of 2 ^ 60 or more in size is
/// left out; where none is left, the window goes from -10 to 10 both ways. Its denominator is a power of ten, at which
/// the corners span 1000 units or more as far as that is possible with 9 digits behind the point.
pub fn window_around(corners: &[Corner]) -> PlaneWindow
    ensures { result ≡ frame_around corners.now }
{
    let den = power(exponent(corners));
    match spans(den, corners) {
        None => usual_window(),
        Some(reaches) => widened(den, reaches),
    }
}

/// The window from -10 to 10 both ways.
fn usual_window() -> PlaneWindow
    ensures { result ≡ usual_frame }
{
    PlaneWindow {
        left: -10,
        right: 10,
        bottom: -10,
        top: 10,
        den: 1,
    }
}

/// What the corners reach over, and a margin on each side.
fn widened(den: i128, reaches: Reaches) -> PlaneWindow
    requires den { IsWithin 31 den }
    requires positive { pos 0 <ℤ den }
    ensures { result ≡ widened den reaches }
{
    let Reaches { x, y } = reaches;
    framed(den, margin(x, y), x, y)
}

/// What both coordinates reach over, and this margin on each side.
fn framed(den: i128, margin: i128, x: NumberSpan, y: NumberSpan) -> PlaneWindow
    requires den { IsWithin 31 den }
    requires positive { pos 0 <ℤ den }
    requires margin { IsWithin 60 margin }
    requires some { pos 0 <ℤ margin }
    ensures { result ≡ framed den margin (record { x = x; y = y }) }
{
    let (left, right) = x.widened(margin);
    let (bottom, top) = y.widened(margin);
    PlaneWindow {
        left,
        right,
        bottom,
        top,
        den,
    }
}

/// A twentieth of the extent, and at least one unit.
fn margin(x: NumberSpan, y: NumberSpan) -> i128
    ensures value { result ≡ pos (margin (record { x = x; y = y })) }
    ensures short { IsWithin 60 result }
    ensures positive { pos 0 <ℤ result }
{
    greater(1, greater(x.length(), y.length()) / 20) as i128
}

/// How many digits behind the point the ends of the window have.
fn exponent(corners: &[Corner]) -> u32
    ensures value { result ≡ exponent corners.now }
    ensures most { result ≤ 9 }
{
    match spans(1, corners) {
        None => 0,
        Some(reaches) => {
            if reaches.is_far() {
                0
            } else {
                exponent_from(10, corners)
            }
        }
    }
}

/// The least exponent at which the corners span 1000 units or more, among the greatest ones up to 9, so many.
fn exponent_from(left: u32, corners: &[Corner]) -> u32
    requires { left ≤ 10 }
    ensures value { result ≡ exponent_from left corners.now }
    ensures most { result ≤ 9 }
{
    if left == 0 {
        return if 2 <= extent_at(9, corners) { 9 } else { 0 };
    }
    let exponent = 10 - left;
    if 1000 <= extent_at(exponent, corners) {
        return exponent;
    }
    exponent_from(left - 1, corners)
}

/// How long the corners span at this exponent.
fn extent_at(exponent: u32, corners: &[Corner]) -> u128
    requires { exponent ≤ 9 }
    ensures { result ≡ extent_of (spans (pos (10 ^ exponent)) corners.now) }
{
    match spans(power(exponent), corners) {
        None => 0,
        Some(reaches) => reaches.extent(),
    }
}
