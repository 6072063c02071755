//! Ends of ranges in 64 bits.
//!
//! A number of units up to 2 to the power of 62 is its own code. Codes beyond stand for whole numbers, and the least
//! one for no end. So ends stand in the order of their codes, those near 0 are fine, and those far away are whole
//! numbers up to about 2 to the power of 62.
ghost use Rattle.std.specs.Prelude.{◌≡◌, Option, Some, None, IfSome};
ghost use Rattle.ded_ranges.specs.Codes.{units_of, code_of, turned, is_none, is_lower, is_up_to, IsShortEnd};
ghost use Rattle.ded_ranges.specs.Reaches.{NotAbove, NotBelow};

use std::marker::Model;

/// How many units are 1.
pub(crate) const FINE: i128 = 4294967296;

/// Codes above it stand for whole numbers, and so do those below its negative.
const EDGE: i128 = 4611686018427387904;

/// How far the code of a whole number is from it.
const SHIFT: i128 = 4611686017353646080;

/// An end of a range, or none. Contracts see the number of units of 2 to the power of -32, if there is an end.
#[derive(Clone, Copy, Default)]
pub struct End {
    code: i64,
}

impl Model for End {
    ghost use Rattle.std.specs.Prelude.{Option, ℤ};
    ghost use Rattle.ded_ranges.specs.Codes.{end_of, code_at};
    ghost use Rattle.ded_ranges.specs.Coding.{code_back};

    ghost Value = { Option ℤ };

    ghost view = { λ e. end_of e.code };

    ghost inverse = { λ o. record { code = code_at o } };

    ghost inverse_ok = { λ e h i. record { code = code_back e.code i } };
}

impl End {
    /// No end.
    pub fn none() -> End
        ensures { result ≡ None }
    {
        End { code: i64::MIN }
    }

    /// Whether there is none.
    pub fn is_none(self) -> bool
        ensures { result ≡ is_none self }
    {
        self.code == i64::MIN
    }

    /// The number of units, if there is an end: at most 2 to the power of 96 on either side of 0.
    pub fn units(self) -> Option<i128>
        ensures value { result ≡ self }
        ensures short { IfSome result (λ k. IsShortEnd k) }
    {
        if self.code == i64::MIN {
            None
        } else {
            Some(units_of(self.code))
        }
    }

    /// The highest end that is at most so many units: as a low end it lets through no less. There is none where the
    /// number is too low or too high, or there is no number.
    pub fn at_most(units: Option<i128>) -> End
        ensures { NotAbove result units }
    {
        match units {
            Some(units) => rounded_down(units),
            None => End::none(),
        }
    }

    /// The lowest end that is at least so many units: as a high end it lets through no less. There is none where the
    /// number is too low or too high, or there is no number.
    pub fn at_least(units: Option<i128>) -> End
        ensures { NotBelow result units }
    {
        match units {
            Some(units) => rounded_up(units),
            None => End::none(),
        }
    }

    /// Whether it is lower than the other, where no end is lower than all.
    pub(crate) fn is_lower(self, other: End) -> bool
        ensures { result ≡ is_lower self other }
    {
        self.code < other.code
    }

    /// Whether it is, as a low end, at or below a high end. Where one of them is none, it is.
    pub(crate) fn is_up_to(self, high: End) -> bool
        ensures { result ≡ is_up_to self high }
    {
        // no low end has the least code
        high.code == i64::MIN || self.code <= high.code
    }

    /// The negative.
    fn turned(self) -> End
        ensures { result ≡ turned self }
    {
        if self.code == i64::MIN {
            self
        } else {
            End { code: -self.code }
        }
    }
}

/// The highest end that is at most so many units.
fn rounded_down(units: i128) -> End
    ensures { NotAbove result (Some units) }
{
    match i64::try_from(code_of(units)) {
        Ok(code) => End { code },
        Err(_) => End::none(),
    }
}

/// The lowest end that is at least so many units.
fn rounded_up(units: i128) -> End
    ensures { NotBelow result (Some units) }
{
    match units.checked_neg() {
        Some(units) => rounded_down(units).turned(),
        None => End::none(),
    }
}

/// The units that a code stands for.
fn units_of(code: i64) -> i128
    ensures { result ≡ units_of code }
{
    let code = i128::from(code);
    if code < -EDGE {
        FINE * (code + SHIFT)
    } else if EDGE < code {
        FINE * (code - SHIFT)
    } else {
        code
    }
}

/// The code of so many units, or of the whole number below.
fn code_of(units: i128) -> i128
    ensures { result ≡ code_of units }
{
    if units < -EDGE {
        units.div_euclid(FINE) - SHIFT
    } else if EDGE < units {
        units.div_euclid(FINE) + SHIFT
    } else {
        units
    }
}
