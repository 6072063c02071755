//! What corners span, in whole units.
ghost use Rattle.std.specs.Prelude.{◌≡◌, ◌<◌, ◌^◌, ◌*◌, true, pos, ◌<ℤ◌, ◌≤ℤ◌, ◌+ℤ◌, ◌-ℤ◌, unsigned_abs};
ghost use Rattle.ded_axes.specs.Around.{ceiling, counts, extent, floor, greater, greatest, is_far, is_far_span};
ghost use Rattle.ded_axes.specs.Around.{is_near, joined, joined_span, joined_with, least, length_of_span, reached};
ghost use Rattle.ded_axes.specs.Around.{span_of, spans, spans_of};
ghost use Rattle.ded_num.specs.Length.{IsShort, IsWithin};

use crate::number::product;
use ded_polygon::Corner;
use std::marker::Model;

/// The numbers from `low` to `high`, which are below 2 ^ 61 in size.
#[derive(Clone, Copy)]
pub(crate) struct NumberSpan {
    pub low: i128,
    pub high: i128,
}

impl Model for NumberSpan {
    ghost use Rattle.ded_axes.specs.Spans.{Span, IsSpan};

    ghost Value = { Span };

    ghost view = { λ s. record { low = s.low; high = s.high } };

    ghost inverse = { λ s. record { low = s.low; high = s.high } };

    ghost invariant = { λ s. IsSpan (record { low = s.low; high = s.high }) };
}

/// What both coordinates of corners reach over.
#[derive(Clone, Copy)]
pub(crate) struct Reaches {
    pub x: NumberSpan,
    pub y: NumberSpan,
}

impl NumberSpan {
    /// The whole units around a number.
    fn around(low: i128, high: i128) -> NumberSpan
        requires low { IsWithin 61 low }
        requires high { IsWithin 61 high }
        requires order { low ≤ℤ high }
        ensures { result ≡ record { low = low; high = high } }
    {
        NumberSpan { low, high }
    }

    /// The least span that has both in it.
    fn joined(self, other: NumberSpan) -> NumberSpan
        ensures { result ≡ joined_span self other }
    {
        NumberSpan {
            low: least(self.low, other.low),
            high: greatest(self.high, other.high),
        }
    }

    /// Its ends, each with a margin behind it.
    pub fn widened(self, margin: i128) -> (i128, i128)
        requires margin { IsWithin 60 margin }
        requires positive { pos 0 <ℤ margin }
        ensures low { result.0 ≡ self.low -ℤ margin }
        ensures high { result.1 ≡ self.high +ℤ margin }
        ensures short_low { IsWithin 62 result.0 }
        ensures short_high { IsWithin 62 result.1 }
        ensures order { result.0 <ℤ result.1 }
    {
        (self.low - margin, self.high + margin)
    }

    /// How long it is.
    pub fn length(self) -> u128
        ensures value { result ≡ length_of_span self }
        ensures short { result < 2 ^ 62 }
    {
        (self.high - self.low).unsigned_abs()
    }

    /// Whether an end is at least 2 ^ 30 in size.
    fn is_far(self) -> bool
        ensures { result ≡ is_far_span self }
    {
        1_073_741_824 <= self.low.unsigned_abs() || 1_073_741_824 <= self.high.unsigned_abs()
    }
}

impl Reaches {
    /// The least spans that have both in them.
    fn joined(self, other: Reaches) -> Reaches
        ensures { result ≡ joined self other }
    {
        Reaches {
            x: self.x.joined(other.x),
            y: self.y.joined(other.y),
        }
    }

    /// The length of the longer one.
    pub fn extent(self) -> u128
        ensures value { result ≡ extent self }
        ensures short { result < 2 ^ 62 }
    {
        greater(self.x.length(), self.y.length())
    }

    /// Whether an end is at least 2 ^ 30 in size.
    pub fn is_far(self) -> bool
        ensures { result ≡ is_far self }
    {
        self.x.is_far() || self.y.is_far()
    }
}

/// What the corners that count reach over in units of `1 / den`; none where none counts.
pub(crate) fn spans(den: i128, corners: &[Corner]) -> Option<Reaches>
    requires { IsWithin 30 den }
    ensures { result ≡ spans den corners.now }
{
    let mut found = None;
    for corner in corners {
        found = reached(den, found, *corner);
    }
    found
}

/// The same with one corner more.
fn reached(den: i128, found: Option<Reaches>, corner: Corner) -> Option<Reaches>
    requires { IsWithin 30 den }
    ensures { result ≡ reached den found corner }
{
    if !counts(den, corner) {
        return found;
    }
    Some(joined_with(found, spans_of(den, corner)))
}

/// The least spans that have these and those found before in them.
fn joined_with(found: Option<Reaches>, own: Reaches) -> Reaches
    ensures { result ≡ joined_with found own }
{
    match found {
        None => own,
        Some(before) => before.joined(own),
    }
}

/// Whether both coordinates are below 2 ^ 60 units in size.
fn counts(den: i128, corner: Corner) -> bool
    requires { IsWithin 30 den }
    ensures { result ≡ counts den corner }
{
    is_near(den, corner.x, corner.den) && is_near(den, corner.y, corner.den)
}

/// Whether `z / d` is below 2 ^ 60 units in size.
fn is_near(den: i128, z: i128, d: i128) -> bool
    requires den { IsWithin 30 den }
    requires z { IsWithin 94 z }
    requires d { IsWithin 63 d }
    ensures { result ≡ is_near den z d }
{
    product(z, den).unsigned_abs() < 1_152_921_504_606_846_976 * d.unsigned_abs()
}

/// The whole units around both coordinates.
fn spans_of(den: i128, corner: Corner) -> Reaches
    requires den { IsWithin 30 den }
    requires counts { counts den corner ≡ true }
    ensures { result ≡ spans_of den corner }
{
    Reaches {
        x: span_of(den, corner.x, corner.den),
        y: span_of(den, corner.y, corner.den),
    }
}

/// The whole units around `z / d`.
fn span_of(den: i128, z: i128, d: i128) -> NumberSpan
    requires den { IsWithin 30 den }
    requires z { IsWithin 94 z }
    requires d { IsWithin 63 d }
    requires positive { pos 0 <ℤ d }
    requires near { is_near den z d ≡ true }
    ensures { result ≡ span_of den z d }
{
    let scaled = product(z, den);
    NumberSpan::around(floor(scaled, d), ceiling(scaled, d))
}

/// The greatest whole number that is at most `z / d`.
fn floor(z: i128, d: i128) -> i128
    requires z { IsShort z }
    requires positive { pos 0 <ℤ d }
    ensures { result ≡ floor z d }
{
    z.div_euclid(d)
}

/// The least whole number that is at least `z / d`.
fn ceiling(z: i128, d: i128) -> i128
    requires z { IsShort z }
    requires positive { pos 0 <ℤ d }
    ensures { result ≡ ceiling z d }
{
    -(-z).div_euclid(d)
}

fn least(a: i128, b: i128) -> i128
    ensures { result ≡ least a b }
{
    if a <= b { a } else { b }
}

fn greatest(a: i128, b: i128) -> i128
    ensures { result ≡ greatest a b }
{
    if a <= b { b } else { a }
}

/// The greater one.
pub(crate) fn greater(a: u128, b: u128) -> u128
    ensures { result ≡ greater a b }
{
    if a <= b { b } else { a }
}
