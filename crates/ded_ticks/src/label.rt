//! Labels of values.
ghost use Rattle.std.specs.Prelude.{◌≡◌, ◌+◌, ◌<◌, ◌++◌, pos, ◌<ℤ◌, IfOk, OnOk};
ghost use Rattle.ded_cells.specs.Decimals.{sign_text, value_text};
ghost use Rattle.ded_num.specs.Length.{IsWithin};
ghost use Rattle.ded_ticks.specs.Labels.{clock_text, hours_text, time_text, zero_before};
ghost use Rattle.ded_ticks.specs.Scales.{label_of};

use crate::scale::Axis;
use ded_cells::{put_number, put_value};
use ded_dump::Text;
use ded_model::bound::Frac;
use ded_model::memory::NoMemory;
use ded_model::name::Name;
use ded_polygon::PlaneWindow;
use std::alloc::Global;

/// The label of a value.
///
/// # Errors
/// Out of memory.
pub(crate) fn label(
    alloc: Global,
    axis: Axis,
    window: PlaneWindow,
    value: i128,
) -> Result<Name, NoMemory>
    requires { IsWithin 64 value }
    ensures { IfOk result (λ label. label ≡ label_of axis window value) }
{
    match axis {
        Axis::Lower => number(alloc, value, window.den),
        Axis::Left => number(alloc, value, window.den),
        Axis::Clock => time(alloc, value, window.den),
    }
}

/// A number over a denominator.
fn number(alloc: Global, num: i128, den: i128) -> Result<Name, NoMemory>
    requires short { IsWithin 64 num }
    requires within { IsWithin 31 den }
    requires positive { pos 0 <ℤ den }
    ensures { IfOk result (λ label. label ≡ value_text (record { num = num; den = den })) }
{
    let mut text = Text::new(alloc);
    put_value(&mut text, Frac { num, den })?;
    Ok(text.into_line())
}

/// Minutes over a denominator, as a time.
fn time(alloc: Global, minutes: i128, den: i128) -> Result<Name, NoMemory>
    requires { pos 0 <ℤ den }
    ensures { IfOk result (λ label. label ≡ time_text minutes den) }
{
    let mut text = Text::new(alloc);
    put_time(&mut text, minutes, den)?;
    Ok(text.into_line())
}

/// Puts minutes over a denominator as a time.
fn put_time(text: &mut Text, minutes: i128, den: i128) -> Result<(), NoMemory>
    requires { pos 0 <ℤ den }
    ensures { OnOk result (text.new ≡ text.old ++ time_text minutes den) }
{
    text.put(sign_bytes(minutes))?;
    put_clock(text, minutes.unsigned_abs() / den.unsigned_abs())
}

/// `-` before a negative number.
fn sign_bytes(number: i128) -> &'static [u8]
    ensures { result.now ≡ sign_text number }
{
    if number < 0 { b"-" } else { b"" }
}

/// Puts so many minutes, as hours and minutes.
fn put_clock(text: &mut Text, minutes: u128) -> Result<(), NoMemory>
    ensures { OnOk result (text.new ≡ text.old ++ clock_text minutes) }
{
    put_hours(text, minutes / 60)?;
    text.put(&[b':', digit(minutes % 60 / 10), digit(minutes % 60 % 10)])
}

/// Puts so many hours, with two digits or more.
fn put_hours(text: &mut Text, hours: u128) -> Result<(), NoMemory>
    ensures { OnOk result (text.new ≡ text.old ++ hours_text hours) }
{
    text.put(zero_before(hours))?;
    put_number(text, hours)
}

/// `0` before a number of one digit.
fn zero_before(number: u128) -> &'static [u8]
    ensures { result.now ≡ zero_before number }
{
    if number < 10 { b"0" } else { b"" }
}

/// A digit, as a byte.
fn digit(value: u128) -> u8
    requires { value < 10 }
    ensures { result ≡ 48 + value }
{
    b'0' + value as u8
}
