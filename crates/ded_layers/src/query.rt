//! Limits that all points between the corners of a part meet.
ghost use Rattle.std.specs.Prelude.{◌≡◌, ◌≤ℤ◌, ◌+ℤ◌, ◌*ℤ◌, ℕ, ℤ, pos, ◌<ℤ◌, true, unsigned_abs, IfOk, OnOk};
ghost use Rattle.ded_ranges.specs.Reaches.{IsAbove, IsBelow, Lies, IsIn};
ghost use Rattle.ded_ranges.specs.Limits.{are_met};
ghost use Rattle.ded_layers.specs.Indexed.{coordinates, MeetBetween, LieIn};

use ded_model::bound::{Bound, Frac};
use ded_model::memory::NoMemory;
use ded_model::row::RowOp;
use ded_polygon::Corner;
use ded_ranges::{End, Limit, Range, Reach, ceil_of, floor_of};
use std::alloc::Global;

/// How many units of ends of ranges are 1.
const FINE: i128 = 4294967296;

/// Limits that each point between two of the corners meets.
///
/// # Errors
/// Out of memory.
pub(crate) fn query(alloc: Global, corners: &[Corner]) -> Result<Vec<Limit>, NoMemory>
    ensures { IfOk result (λ ls. MeetBetween corners.now ls.items) }
{
    let reach = hull_of(alloc, corners)?;
    let mut limits = Vec::new(alloc);
    add_limits(&mut limits, 0, reach.at(0))?;
    add_limits(&mut limits, 1, reach.at(1))?;
    Ok(limits)
}

/// Adds the limits of a range at a place.
///
/// # Errors
/// Out of memory.
fn add_limits(limits: &mut Vec<Limit>, place: usize, range: Range) -> Result<(), NoMemory>
    ensures { (v : ℕ → ℤ) (den : ℕ) → IsIn range (v place) den → are_met v den limits.old.items ≡ true
        → OnOk result (are_met v den limits.new.items ≡ true) }
{
    add_low(limits, place, range.low)?;
    add_high(limits, place, range.high)
}

/// Adds the limit of a low end at a place, if there is one.
///
/// # Errors
/// Out of memory.
fn add_low(limits: &mut Vec<Limit>, place: usize, end: End) -> Result<(), NoMemory>
    ensures { (v : ℕ → ℤ) (den : ℕ) → IsAbove end (v place) den → are_met v den limits.old.items ≡ true
        → OnOk result (are_met v den limits.new.items ≡ true) }
{
    if let Some(units) = end.units() {
        add_limit(limits, place, -FINE, units)?;
    }
    Ok(())
}

/// Adds the limit of a high end at a place, if there is one.
///
/// # Errors
/// Out of memory.
fn add_high(limits: &mut Vec<Limit>, place: usize, end: End) -> Result<(), NoMemory>
    ensures { (v : ℕ → ℤ) (den : ℕ) → IsBelow end (v place) den → are_met v den limits.old.items ≡ true
        → OnOk result (are_met v den limits.new.items ≡ true) }
{
    if let Some(units) = end.units() {
        add_limit(limits, place, FINE, -units)?;
    }
    Ok(())
}

/// Adds the limit that the multiple of the value at a place, and the constant, are at most 0 together.
///
/// # Errors
/// Out of memory.
fn add_limit(limits: &mut Vec<Limit>, place: usize, a: i128, constant: i128) -> Result<(), NoMemory>
    ensures { (v : ℕ → ℤ) (den : ℕ) → (a *ℤ v place +ℤ constant *ℤ pos den) ≤ℤ pos 0
        → are_met v den limits.old.items ≡ true → OnOk result (are_met v den limits.new.items ≡ true) }
{
    let mut terms = Vec::new(*limits.allocator());
    terms.push((place, a))?;
    limits.push(Limit {
        terms,
        constant,
        op: RowOp::AtMost,
    })?;
    Ok(())
}

/// Ranges in which the coordinates of all corners lie.
///
/// # Errors
/// Out of memory.
fn hull_of(alloc: Global, corners: &[Corner]) -> Result<Reach, NoMemory>
    ensures { IfOk result (λ r. LieIn r corners.now) }
{
    let mut hull = first_reach(alloc, corners)?;
    for i in 0..corners.len() {
        hull.widen(&spot_reach(alloc, corners[i])?);
    }
    Ok(hull)
}

/// Those of the first corner, if there is one.
///
/// # Errors
/// Out of memory.
fn first_reach(alloc: Global, corners: &[Corner]) -> Result<Reach, NoMemory> {
    match corners {
        [first, ..] => spot_reach(alloc, *first),
        [] => Ok(Reach::new(alloc)),
    }
}

/// Ranges in which the coordinates of the corner lie.
///
/// # Errors
/// Out of memory.
fn spot_reach(alloc: Global, corner: Corner) -> Result<Reach, NoMemory>
    ensures lies { IfOk result (λ r. Lies r (coordinates corner) (unsigned_abs corner.den)) }
    ensures positive { pos 0 <ℤ corner.den }
{
    let mut reach = Reach::new(alloc);
    let _ = (corner.den, 0); // for its invariant
    reach.push(range_around(x_of(corner)))?;
    reach.push(range_around(y_of(corner)))?;
    Ok(reach)
}

/// A range in which the fraction lies.
fn range_around(value: Frac) -> Range
    ensures { IsIn result value.num (unsigned_abs value.den) }
{
    let _ = (value.den, 0); // for its invariant
    Range {
        low: floor_at(value),
        high: ceil_at(value),
    }
}

/// A low end for all values that are not less than the fraction.
pub(crate) fn floor_at(value: Frac) -> End
    ensures { (x : ℤ) (d : ℕ) → (value.num *ℤ pos d) ≤ℤ (x *ℤ value.den) → IsAbove result x d }
{
    floor_of(Bound::Included(value))
}

/// A high end for all values that are not greater than the fraction.
pub(crate) fn ceil_at(value: Frac) -> End
    ensures { (x : ℤ) (d : ℕ) → (x *ℤ value.den) ≤ℤ (value.num *ℤ pos d) → IsBelow result x d }
{
    ceil_of(Bound::Included(value))
}

/// The first coordinate.
pub(crate) fn x_of(corner: Corner) -> Frac
    ensures { result ≡ record { num = corner.x; den = corner.den } }
{
    Frac {
        num: corner.x,
        den: corner.den,
    }
}

/// The second coordinate.
pub(crate) fn y_of(corner: Corner) -> Frac
    ensures { result ≡ record { num = corner.y; den = corner.den } }
{
    Frac {
        num: corner.y,
        den: corner.den,
    }
}
