//! Reaches, and their ends from exact bounds.
ghost use Rattle.std.specs.Prelude.{◌≡◌, ℕ, ℤ, ◌<◌, ◌<ℤ◌, ◌≤ℤ◌, ◌*ℤ◌, pos, neg_ℤ, true, [], ◌++◌, ◌∷◌, length, IfOk};
ghost use Rattle.std.specs.Prelude.{OnErr, IfSome};
ghost use Rattle.ded_num.specs.Length.{IsShort};
ghost use Rattle.ded_model.specs.declared.bound.Bound.TheVariants.{Included};
ghost use Rattle.ded_ranges.specs.Codes.{fine, is_up_to};
ghost use Rattle.ded_ranges.specs.Reaches.{IsFloor, IsCeil, IsWithin, lower_of, higher_of, joined, range_at, hull};
ghost use Rattle.ded_ranges.specs.Reaches.{IsIn, Lies, both_low, both_high, everywhere, met, narrowed, all_values};
ghost use Rattle.ded_ranges.specs.Reaches.{AreOrdered};

use crate::end::{End, FINE};
use crate::number::directed;
use ded_model::bound::{Bound, Frac};
use ded_model::memory::NoMemory;
use ded_num::short_product;
use smallvec::SmallVec;
use std::alloc::Global;
use std::marker::Model;

/// The values between two ends.
#[derive(Clone, Copy, Default)]
pub struct Range {
    pub low: End,
    pub high: End,
}

/// A range for each column in order. Contracts see the list. Up to three stand in the value itself.
#[derive(Drop)]
pub struct Reach {
    ranges: SmallVec<Range, 3>,
}

impl Model for Reach {
    ghost use Rattle.std.specs.Prelude.{List};
    ghost use Rattle.ded_ranges.specs.declared.reach.Range.{Range};

    ghost Value = { List Range };

    ghost view = { λ r. r.ranges.items };
}

impl Reach {
    /// The reach of no columns.
    pub fn new(alloc: Global) -> Reach
        ensures { result ≡ [] }
    {
        Reach {
            ranges: SmallVec::new(alloc),
        }
    }

    /// The ranges.
    pub fn ranges(&self) -> &[Range]
        ensures { result.now ≡ self.now }
    {
        self.ranges.as_slice()
    }

    /// The reach of all values of so many columns.
    ///
    /// # Errors
    /// Out of memory.
    pub fn everywhere(alloc: Global, width: usize) -> Result<Reach, NoMemory>
        ensures { IfOk result (λ r. r ≡ all_values width) }
    {
        let mut ranges = SmallVec::with_capacity(alloc, width)?;
        for _ in 0..width {
            ranges.push(everywhere())?;
        }
        Ok(Reach { ranges })
    }

    /// Adds the range of a further column.
    ///
    /// # Errors
    /// Out of memory; the reach is as it was then.
    pub fn push(&mut self, range: Range) -> Result<(), NoMemory>
        ensures added { IfOk result (λ _. self.new ≡ self.old ++ range ∷ []) }
        ensures unchanged { OnErr result (self.new ≡ self.old) }
    {
        self.ranges.push(range)?;
        Ok(())
    }

    /// An equal reach.
    ///
    /// # Errors
    /// Out of memory.
    pub fn copy(&self) -> Result<Reach, NoMemory>
        ensures { IfOk result (λ r. r ≡ self.now) }
    {
        Ok(Reach {
            ranges: SmallVec::from_slice(*self.ranges.allocator(), self.ranges())?,
        })
    }

    /// The range at a place, all values where there is none.
    pub fn at(&self, place: usize) -> Range
        ensures { result ≡ range_at self.now place }
    {
        range_at(self.ranges(), place)
    }

    /// Narrows the range at a place, if there is one, to the values that lie in another one too.
    pub fn narrow(&mut self, place: usize, range: Range)
        ensures value { self.new ≡ narrowed self.old place range }
        ensures lies { (v : ℕ → ℤ) (den : ℕ) → Lies self.old v den → IsIn range (v place) den → Lies self.new v den }
    {
        narrow(self.ranges.as_mut_slice(), place, range);
    }

    /// The reach of so many columns with the same values in which no range ends before it begins: one that does, in
    /// which no value lies, ends where it begins.
    ///
    /// # Errors
    /// Out of memory.
    pub fn in_order(&self, width: usize) -> Result<Reach, NoMemory>
        ensures width { IfOk result (λ r. length r ≡ width) }
        ensures ends { IfOk result (λ r. AreOrdered r) }
        ensures lies { IfOk result (λ r. (v : ℕ → ℤ) (den : ℕ) → 0 < den → Lies self.now v den → Lies r v den) }
    {
        let mut ranges = SmallVec::with_capacity(*self.ranges.allocator(), width)?;
        for place in 0..width {
            ranges.push(in_order(self.at(place)))?;
        }
        Ok(Reach { ranges })
    }

    /// Widens it to the least reach, place by place, that contains the other too.
    pub fn widen(&mut self, other: &Reach)
        ensures value { self.new ≡ hull self.old other.now }
        ensures own { IsWithin self.old self.new }
        ensures other { IsWithin other.now self.new }
    {
        widen(self.ranges.as_mut_slice(), other.ranges());
    }
}

/// The range at a place, all values where there is none.
fn range_at(ranges: &[Range], place: usize) -> Range
    ensures { result ≡ range_at ranges.now place }
{
    if place < ranges.len() {
        ranges[place]
    } else {
        everywhere()
    }
}

/// Narrows the range at a place, if there is one, to the values that lie in another one too.
fn narrow(ranges: &mut [Range], place: usize, range: Range)
    ensures { ranges.new ≡ narrowed ranges.old place range }
{
    if place < ranges.len() {
        ranges[place] = met(ranges[place], range);
    }
}

/// The range, or its low end alone where it ends before it begins, so that no value lies in it.
fn in_order(range: Range) -> Range
    ensures ends { is_up_to result.low result.high ≡ true }
    ensures lies { (num : ℤ) (den : ℕ) → 0 < den → IsIn range num den → IsIn result num den }
{
    if range.low.is_up_to(range.high) {
        range
    } else {
        Range {
            low: range.low,
            high: range.low,
        }
    }
}

/// Widens each range to the least one that contains the other's too.
fn widen(ranges: &mut [Range], other: &[Range])
    ensures { ranges.new ≡ hull ranges.old other.now }
{
    for i in 0..ranges.len() {
        ranges[i] = joined(ranges[i], range_at(other, i));
    }
}

/// The least range that contains both.
fn joined(a: Range, b: Range) -> Range
    ensures { result ≡ joined a b }
{
    Range {
        low: lower_of(a.low, b.low),
        high: higher_of(a.high, b.high),
    }
}

/// All values.
pub(crate) fn everywhere() -> Range
    ensures { result ≡ everywhere }
{
    Range {
        low: End::none(),
        high: End::none(),
    }
}

/// The values that lie in both.
pub(crate) fn met(a: Range, b: Range) -> Range
    ensures { result ≡ met a b }
{
    Range {
        low: both_low(a.low, b.low),
        high: both_high(a.high, b.high),
    }
}

/// The higher of two low ends.
fn both_low(a: End, b: End) -> End
    ensures { result ≡ both_low a b }
{
    if a.is_lower(b) { b } else { a }
}

/// The lower of two high ends.
fn both_high(a: End, b: End) -> End
    ensures { result ≡ both_high a b }
{
    if a.is_none() {
        b
    } else if b.is_none() {
        a
    } else if b.is_lower(a) {
        b
    } else {
        a
    }
}

/// The lower of two low ends.
fn lower_of(a: End, b: End) -> End
    ensures { result ≡ lower_of a b }
{
    if b.is_lower(a) { b } else { a }
}

/// The higher of two high ends.
fn higher_of(a: End, b: End) -> End
    ensures { result ≡ higher_of a b }
{
    if a.is_none() {
        a
    } else if b.is_none() {
        b
    } else if a.is_lower(b) {
        b
    } else {
        a
    }
}

/// The low end of a lower bound, rounded down. There is none where the bound is infinite, or its number too long.
pub fn floor_of(bound: Bound) -> End
    ensures { IsFloor bound result }
{
    End::at_most(floor_units(bound))
}

/// The high end of an upper bound, rounded up. There is none where the bound is infinite, or its number too long.
pub fn ceil_of(bound: Bound) -> End
    ensures { IsCeil bound result }
{
    End::at_least(ceil_units(bound))
}

/// The number of units of a lower bound, rounded down.
fn floor_units(bound: Bound) -> Option<i128>
    ensures { IsFloor bound result }
{
    match bound {
        Bound::Infinite => None,
        Bound::Excluded(f) => floor(f),
        Bound::Included(f) => floor(f),
    }
}

/// The number of units of an upper bound, rounded up.
fn ceil_units(bound: Bound) -> Option<i128>
    ensures { IsCeil bound result }
{
    match bound {
        Bound::Infinite => None,
        Bound::Excluded(f) => ceil(f),
        Bound::Included(f) => ceil(f),
    }
}

/// The greatest number of units that is at most the fraction, unless it is too long.
fn floor(f: Frac) -> Option<i128>
    ensures { IsFloor (Included f) result }
{
    whole(f.num, f.den)
}

/// The least number of units that is at least the fraction, unless it is too long.
fn ceil(f: Frac) -> Option<i128>
    ensures { IsCeil (Included f) result }
{
    match whole(directed(true, f.num), f.den) {
        Some(units) => negative(units),
        None => None,
    }
}

/// The negative, unless it is too long.
pub(crate) fn negative(units: i128) -> Option<i128>
    ensures { IfSome result (λ k. k ≡ neg_ℤ units) }
{
    units.checked_neg()
}

/// The greatest number of units that is at most the fraction, unless it is too long.
pub(crate) fn whole(num: i128, den: i128) -> Option<i128>
    requires { pos 0 <ℤ den }
    ensures floor { IfSome result (λ k. (k *ℤ den) ≤ℤ (num *ℤ pos fine)) }
    ensures short { IfSome result (λ _. IsShort (num *ℤ pos fine)) }
{
    match short_product(num, FINE) {
        Some(units) => Some(units.div_euclid(den)),
        None => None,
    }
}
