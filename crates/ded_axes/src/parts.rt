//! Parts of a length, in hundredths of a unit.
ghost use Rattle.std.specs.Prelude.{◌≡◌, ◌<◌, ◌≤◌, ◌^◌, ◌*◌, ◌/◌, ◌%◌, pos, ◌<ℤ◌};
ghost use Rattle.ded_svg.specs.Coordinates.{nearest};
ghost use Rattle.ded_axes.specs.Places.{clamped, portion};
ghost use Rattle.ded_num.specs.Length.{IsWithin};

use ded_svg::Coordinate;

/// The part `offset / extent` of a length in units; none of it where the offset is below 0, and all of it where it is
/// above the extent.
pub fn portion(offset: i128, extent: i128, units: u32) -> Coordinate
    requires positive { pos 0 <ℤ extent }
    requires short { IsWithin 126 extent }
    ensures { result ≡ record { hundredths = portion offset extent units } }
{
    let whole = extent.unsigned_abs();
    let part = clamped(offset, whole);
    Coordinate {
        hundredths: nearest(part, 100 * u64::from(units), whole) as i128,
    }
}

/// The number nearest to this one that is neither below 0 nor above the most.
fn clamped(number: i128, most: u128) -> u128
    ensures value { result ≡ clamped number most }
    ensures most { result ≤ most }
{
    if number < 0 {
        return 0;
    }
    let size = number.unsigned_abs();
    if most <= size { most } else { size }
}

/// The whole number nearest to `part * count / whole`.
fn nearest(part: u128, count: u64, whole: u128) -> u128
    requires portion { part ≤ whole }
    requires positive { 0 < whole }
    requires short { whole < 2 ^ 126 }
    ensures value { result ≡ nearest (part * count) whole }
    ensures short { result ≤ 2 ^ 64 }
{
    let (quotient, rest) = scaled(part, count, whole);
    if whole <= 2 * rest {
        quotient + 1
    } else {
        quotient
    }
}

/// The quotient and the rest of `part * count` by `whole`, by halves of the count, as the product may be too long.
fn scaled(part: u128, count: u64, whole: u128) -> (u128, u128)
    requires portion { part ≤ whole }
    requires positive { 0 < whole }
    requires short { whole < 2 ^ 126 }
    ensures quotient { result.0 ≡ (part * count) / whole }
    ensures rest { result.1 ≡ (part * count) % whole }
    ensures short { result.0 ≤ count }
{
    if count == 0 {
        return (0, 0);
    }
    let (half, rest) = scaled(part, count / 2, whole);
    let left = 2 * rest + odd_part(part, count);
    (2 * half + left / whole, left % whole)
}

/// The part where the count is odd, and else 0.
fn odd_part(part: u128, count: u64) -> u128
    ensures value { result ≡ part * (count % 2) }
    ensures most { result ≤ part }
{
    if count % 2 == 1 { part } else { 0 }
}
