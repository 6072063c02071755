//! Values as decimals.
ghost use Rattle.std.specs.Prelude.{◌≡◌, ◌+◌, ◌<◌, ◌≤◌, ◌++◌, true, unsigned_abs, OnOk};
ghost use Rattle.ded_print.specs.Numbers.{number_text};
ghost use Rattle.ded_cells.specs.Decimals.{behind_text, decimal_text, digits_behind, has_decimal, magnitude_text};
ghost use Rattle.ded_cells.specs.Decimals.{sign_text, value_text};

use ded_dump::Text;
use ded_model::bound::Frac;
use ded_model::memory::NoMemory;
use ded_num::{gcd, quotient};
use itoa::Buffer;

/// The least common denominator of the decimals with at most 9 digits behind the point: a value over a denominator that
/// doesn't divide it has no such decimal.
const DECIMALS_DENOMINATOR: u128 = 1_000_000_000;

/// The most digits behind the point.
const DIGITS: u32 = 9;

/// Puts a value: as a decimal where it has at most 9 digits behind the point, and else as a fraction in lowest terms.
///
/// # Errors
/// Out of memory.
pub fn put_value(text: &mut Text, value: Frac) -> Result<(), NoMemory>
    ensures { OnOk result (text.new ≡ text.old ++ value_text value) }
{
    let by = gcd(value.num, value.den);
    let num = quotient(value.num, by);
    let den = quotient(value.den, by);
    if has_decimal(den.unsigned_abs()) {
        return put_decimal(text, num, den);
    }
    text.put_fraction(value)
}

/// Whether numbers over the denominator, in lowest terms, have at most 9 digits behind the point.
fn has_decimal(den: u128) -> bool
    ensures { result ≡ has_decimal den }
{
    1 <= den && den <= DECIMALS_DENOMINATOR && DECIMALS_DENOMINATOR % den == 0
}

/// Puts a fraction as a decimal.
fn put_decimal(text: &mut Text, num: i128, den: i128) -> Result<(), NoMemory>
    requires { has_decimal (unsigned_abs den) ≡ true }
    ensures { OnOk result (text.new ≡ text.old ++ decimal_text num den) }
{
    text.put(sign_bytes(num))?;
    put_magnitude(text, num.unsigned_abs(), den.unsigned_abs())
}

/// `-` before a negative number.
fn sign_bytes(number: i128) -> &'static [u8]
    ensures { result.now ≡ sign_text number }
{
    if number < 0 { b"-" } else { b"" }
}

/// Puts a magnitude over a denominator as a decimal.
fn put_magnitude(text: &mut Text, magnitude: u128, den: u128) -> Result<(), NoMemory>
    requires low { 1 ≤ den }
    requires high { den ≤ 1000000000 }
    ensures { OnOk result (text.new ≡ text.old ++ magnitude_text magnitude den) }
{
    put_number(text, magnitude / den)?;
    put_behind(text, magnitude % den, den)
}

/// Puts the point and the digits behind it, none where the rest is 0.
fn put_behind(text: &mut Text, rest: u128, den: u128) -> Result<(), NoMemory>
    requires less { rest < den }
    requires high { den ≤ 1000000000 }
    ensures { OnOk result (text.new ≡ text.old ++ behind_text rest den) }
{
    if rest == 0 {
        return Ok(());
    }
    text.put(b".")?;
    put_digits(text, DIGITS, rest, den)
}

/// Puts the digits behind the point, at most so many, by long division.
fn put_digits(text: &mut Text, left: u32, rest: u128, den: u128) -> Result<(), NoMemory>
    requires less { rest < den }
    requires high { den ≤ 1000000000 }
    ensures { OnOk result (text.new ≡ text.old ++ digits_behind left rest den) }
{
    if left == 0 || rest == 0 {
        return Ok(());
    }
    text.put(&[digit(10 * rest / den)])?;
    put_digits(text, left - 1, 10 * rest % den, den)
}

/// A digit, as a byte.
fn digit(value: u128) -> u8
    requires { value < 10 }
    ensures { result ≡ 48 + value }
{
    b'0' + value as u8
}

/// Puts a natural number in decimal.
///
/// # Errors
/// Out of memory.
pub fn put_number(text: &mut Text, number: u128) -> Result<(), NoMemory>
    ensures { OnOk result (text.new ≡ text.old ++ number_text number) }
{
    let mut buffer = Buffer::new();
    text.put(buffer.format(number).as_bytes())
}
