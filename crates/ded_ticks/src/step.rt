//! Round steps, and their multiples.
ghost use Rattle.std.specs.Prelude.{◌≡◌, ◌<◌, ◌^◌, pos, ◌<ℤ◌, ◌*ℤ◌};
ghost use Rattle.ded_axes.specs.Around.{ceiling};
ghost use Rattle.ded_num.specs.Length.{IsShort, IsWithin};
ghost use Rattle.ded_ticks.specs.Scales.{magnitude_of, step_of};
ghost use Rattle.ded_ticks.specs.Steps.{clock_step, clock_step_from, first_multiple, round_step, round_step_from};

use crate::scale::{Axis, extent};
use ded_polygon::PlaneWindow;

/// How far the ticks are from each other.
pub(crate) fn step(axis: Axis, window: PlaneWindow) -> i128
    ensures value { result ≡ pos (step_of axis window) }
    ensures short { IsWithin 63 result }
    ensures positive { pos 0 <ℤ result }
{
    magnitude(axis, window.den, extent(axis, window)) as i128
}

/// The same, of this extent.
fn magnitude(axis: Axis, den: i128, extent: i128) -> u128
    requires den { IsWithin 31 den }
    requires short { IsWithin 63 extent }
    requires positive { pos 0 <ℤ extent }
    ensures value { result ≡ magnitude_of axis den extent }
    ensures short { result < 2 ^ 63 }
    ensures positive { 0 < result }
{
    match axis {
        Axis::Lower => round_step(extent.unsigned_abs()),
        Axis::Left => round_step(extent.unsigned_abs()),
        Axis::Clock => clock_step(den.unsigned_abs(), extent.unsigned_abs()),
    }
}

/// The least of 1, 2, 5, 10, 20, 50 and so on of which eight are at least the extent.
fn round_step(extent: u128) -> u128
    requires short { extent < 2 ^ 63 }
    requires positive { 0 < extent }
    ensures value { result ≡ round_step extent }
    ensures short { result < 2 ^ 63 }
    ensures positive { 0 < result }
{
    round_step_from(20, 1, extent)
}

/// The same from a step on, its double, and five times it, so many powers of ten on; the extent where there is none.
fn round_step_from(left: u32, step: u128, extent: u128) -> u128
    requires step { step < 2 ^ 63 }
    requires short { extent < 2 ^ 63 }
    requires positive { 0 < extent }
    ensures value { result ≡ round_step_from left step extent }
    ensures short { result < 2 ^ 63 }
    ensures positive { 0 < result }
{
    if left == 0 {
        return extent;
    }
    if extent <= 8 * step {
        return step;
    }
    if extent <= 16 * step {
        return 2 * step;
    }
    if extent <= 40 * step {
        return 5 * step;
    }
    round_step_from(left - 1, 10 * step, extent)
}

/// The least round step of whole minutes, in units of one over the denominator, of which eight are at least the extent.
fn clock_step(den: u128, extent: u128) -> u128
    requires den { den < 2 ^ 31 }
    requires short { extent < 2 ^ 63 }
    requires positive { 0 < extent }
    ensures value { result ≡ clock_step den extent }
    ensures short { result < 2 ^ 63 }
    ensures positive { 0 < result }
{
    clock_step_from(&[1, 2, 5, 10, 15, 30, 60, 120, 180, 360, 720], den, extent)
}

/// The same, of these steps of minutes, and behind them of round numbers of days.
fn clock_step_from(minutes: &[u16], den: u128, extent: u128) -> u128
    requires den { den < 2 ^ 31 }
    requires short { extent < 2 ^ 63 }
    requires positive { 0 < extent }
    ensures value { result ≡ clock_step_from minutes.now den extent }
    ensures short { result < 2 ^ 63 }
    ensures positive { 0 < result }
{
    let Some((first, others)) = minutes.split_first() else {
        return round_step_from(20, 1440 * den, extent);
    };
    let step = u128::from(*first) * den;
    if extent <= 8 * step {
        return step;
    }
    clock_step_from(others, den, extent)
}

/// The least multiple of a step that is at least a number.
pub(crate) fn first_multiple(low: i128, step: i128) -> i128
    requires low { IsWithin 62 low }
    requires step { IsWithin 63 step }
    requires positive { pos 0 <ℤ step }
    ensures value { result ≡ first_multiple low step }
    ensures short { IsWithin 64 result }
{
    product(ceiling(low, step), step)
}

/// The least whole number that is at least `z / d`.
fn ceiling(z: i128, d: i128) -> i128
    requires short { IsShort z }
    requires positive { pos 0 <ℤ d }
    ensures { result ≡ ceiling z d }
{
    -(-z).div_euclid(d)
}

/// The product.
fn product(a: i128, b: i128) -> i128
    requires { IsWithin 64 (a *ℤ b) }
    ensures value { result ≡ a *ℤ b }
    ensures short { IsWithin 64 result }
{
    a * b
}
