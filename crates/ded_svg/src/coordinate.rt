//! Coordinates.
ghost use Rattle.std.specs.Prelude.{◌≡◌, ◌<◌, ◌≤◌, ◌^◌, ◌+◌, ◌++◌, ◌*ℤ◌, ◌<ℤ◌, pos, OnOk};
ghost use Rattle.std.specs.Option.{SomeIff};
ghost use Rattle.ded_num.specs.Length.{IsShort};
ghost use Rattle.ded_print.specs.Numbers.{number_text};
ghost use Rattle.ded_svg.specs.Coordinates.{coordinate_text, hundredths_of, magnitude_text, nearest, nearest_whole};
ghost use Rattle.ded_svg.specs.Coordinates.{sign_text, with_sign_of};

use ded_dump::Text;
use ded_model::bound::Frac;
use ded_model::memory::NoMemory;
use ded_num::short_product;
use itoa::Buffer;

/// A coordinate of a picture: so many hundredths of a unit, to the right or downwards.
#[derive(Clone, Copy, PartialEq, Eq, Debug)]
pub struct Coordinate {
    pub hundredths: i128,
}

impl Coordinate {
    /// The coordinate nearest to a number, and of two that are as near the one farther from 0. There is none exactly
    /// where a hundred times the numerator has more than 127 binary digits.
    pub fn nearest(value: Frac) -> Option<Coordinate>
        ensures { SomeIff result (IsShort (value.num *ℤ pos 100)) (record { hundredths = hundredths_of value }) }
    {
        let scaled = short_product(value.num, 100)?;
        Some(Coordinate {
            hundredths: nearest_whole(scaled, value.den),
        })
    }
}

/// The whole number nearest to a fraction.
fn nearest_whole(num: i128, den: i128) -> i128
    requires num { IsShort num }
    requires den { IsShort den }
    requires positive { pos 0 <ℤ den }
    ensures { result ≡ nearest_whole num den }
{
    with_sign_of(num, nearest(num.unsigned_abs(), den.unsigned_abs()))
}

/// The whole number nearest to a fraction without a sign.
fn nearest(num: u128, den: u128) -> u128
    requires num { num < 2 ^ 127 }
    requires den { den < 2 ^ 127 }
    requires positive { 0 < den }
    ensures value { result ≡ nearest num den }
    ensures less { result ≤ num }
{
    let rest = num % den;
    if den <= 2 * rest {
        num / den + 1
    } else {
        num / den
    }
}

/// The number with the sign of the first one.
fn with_sign_of(signed: i128, magnitude: u128) -> i128
    requires { magnitude < 2 ^ 127 }
    ensures { result ≡ with_sign_of signed magnitude }
{
    if signed < 0 {
        -(magnitude as i128)
    } else {
        magnitude as i128
    }
}

/// Puts a coordinate, with two digits behind the point.
///
/// # Errors
/// Out of memory.
pub(crate) fn put_coordinate(text: &mut Text, coordinate: Coordinate) -> Result<(), NoMemory>
    ensures { OnOk result (text.new ≡ text.old ++ coordinate_text coordinate.hundredths) }
{
    text.put(sign_bytes(coordinate.hundredths))?;
    put_magnitude(text, coordinate.hundredths.unsigned_abs())
}

/// `-` before a negative number.
fn sign_bytes(number: i128) -> &'static [u8]
    ensures { result.now ≡ sign_text number }
{
    if number < 0 { b"-" } else { b"" }
}

/// Puts so many hundredths.
fn put_magnitude(text: &mut Text, hundredths: u128) -> Result<(), NoMemory>
    ensures { OnOk result (text.new ≡ text.old ++ magnitude_text hundredths) }
{
    put_number(text, hundredths / 100)?;
    text.put(&[b'.', digit(hundredths / 10 % 10), digit(hundredths % 10)])
}

/// A digit, as a byte.
fn digit(value: u128) -> u8
    requires { value < 10 }
    ensures { result ≡ 48 + value }
{
    b'0' + value as u8
}

/// Puts a natural number in decimal.
///
/// # Errors
/// Out of memory.
pub(crate) fn put_number(text: &mut Text, number: u128) -> Result<(), NoMemory>
    ensures { OnOk result (text.new ≡ text.old ++ number_text number) }
{
    let mut buffer = Buffer::new();
    text.put(buffer.format(number).as_bytes())
}
