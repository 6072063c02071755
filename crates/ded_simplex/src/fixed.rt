//! Points that rows fix slot by slot, and what such a point tells of all rows.
//!
//! Who looks up a point asks whether rows hold together with equalities of one slot each. Where these fix every slot,
//! one point is to be tried; and where a row doesn't hold there, this row and the equalities of its slots show that
//! there is none.

use ded_model::memory::NoMemory;
use ded_model::row::{Row, RowOp};
use ded_model::slot::Slot;
use ded_weighing::{Witness, row_at};
use std::alloc::Global;

/// An equality of one slot, by its place among the rows: the coefficient times the slot, and the constant, are 0.
#[derive(Clone, Copy)]
struct Fixing {
    place: usize,
    slot: Slot,
    coef: i128,
    constant: i128,
}

/// The only point that may satisfy the rows, with the equalities that fix it.
#[derive(Drop)]
pub(crate) struct Fixed {
    pub(crate) witness: Witness,
    fixings: Vec<Fixing>,
}

impl Fixed {
    /// The point that the equalities of one slot fix. None where some slot of the rows isn't fixed, or a number gets
    /// too long.
    ///
    /// # Errors
    /// Out of memory.
    pub(crate) fn new(alloc: Global, rows: &[&Row]) -> Result<Option<Fixed>, NoMemory> {
        let fixings = fixings(alloc, rows)?;
        if fixings.is_empty() || !are_fixed(rows, &fixings) {
            return Ok(None);
        }
        match point(alloc, &fixings)? {
            Some(witness) => Ok(Some(Fixed { witness, fixings })),
            None => Ok(None),
        }
    }

    /// Numbers, one for each row, that may weigh the rows to a false one: of a row that doesn't hold at the point, and
    /// of the equalities that fix its slots. None where each row holds there, or a number gets too long.
    ///
    /// # Errors
    /// Out of memory.
    pub(crate) fn multipliers(
        &self,
        alloc: Global,
        rows: &[&Row],
    ) -> Result<Option<Vec<i128>>, NoMemory> {
        let Some(place) = rows.iter().position(|row| !holds_at(row, &self.witness)) else {
            return Ok(None);
        };
        let mut numbers = Vec::from_elem(alloc, 0, rows.len())?;
        if weigh(&mut numbers, rows[place], self).is_none() || place >= numbers.len() {
            return Ok(None);
        }
        numbers[place] = self.witness.denominator;
        Ok(Some(numbers))
    }
}

/// The equalities of one slot.
///
/// # Errors
/// Out of memory.
fn fixings(alloc: Global, rows: &[&Row]) -> Result<Vec<Fixing>, NoMemory> {
    let mut fixings = Vec::new(alloc);
    for (place, row) in rows.iter().enumerate() {
        if let (RowOp::Zero, [(slot, coef)]) = (row.op, row.coefs.list()) {
            fixings.push(Fixing {
                place,
                slot: *slot,
                coef: *coef,
                constant: row.constant,
            })?;
        }
    }
    Ok(fixings)
}

/// Whether each slot of the rows is fixed.
fn are_fixed(rows: &[&Row], fixings: &[Fixing]) -> bool {
    rows.iter().all(|row| is_fixed(row, fixings))
}

/// Whether each slot of the row is fixed.
fn is_fixed(row: &Row, fixings: &[Fixing]) -> bool {
    row.coefs
        .list()
        .iter()
        .all(|coef| last_of(fixings, coef.0).is_some())
}

/// The last equality of the slot.
fn last_of(fixings: &[Fixing], slot: Slot) -> Option<Fixing> {
    let mut last = None;
    for fixing in fixings {
        if fixing.slot.is_same(slot) {
            last = Some(*fixing);
        }
    }
    last
}

/// The point with the values that the equalities fix, unless a number gets too long.
///
/// # Errors
/// Out of memory.
fn point(alloc: Global, fixings: &[Fixing]) -> Result<Option<Witness>, NoMemory> {
    let Some(denominator) = denominator(fixings) else {
        return Ok(None);
    };
    let mut values = Vec::with_capacity(alloc, fixings.len())?;
    for fixing in fixings {
        match scaled(fixing.constant, denominator, fixing.coef) {
            Some(value) => values.push((fixing.slot, value))?,
            None => return Ok(None),
        }
    }
    Ok(Some(Witness {
        values,
        denominator,
    }))
}

/// A denominator of all values, unless it gets too long.
fn denominator(fixings: &[Fixing]) -> Option<i128> {
    let mut denominator: i128 = 1;
    for fixing in fixings {
        denominator = denominator.checked_mul(fixing.coef.checked_abs()?)?;
    }
    Some(denominator)
}

/// The negative of the number times the quotient, unless it gets too long.
fn scaled(number: i128, dividend: i128, divisor: i128) -> Option<i128> {
    dividend
        .checked_div(divisor)?
        .checked_mul(number)?
        .checked_neg()
}

/// Sets the numbers of the equalities that fix the slots of the row, so that these come to 0 with the denominator times
/// the row.
fn weigh(numbers: &mut [i128], row: &Row, fixed: &Fixed) -> Option<()> {
    for (slot, a) in row.coefs.list() {
        let fixing = last_of(&fixed.fixings, *slot)?;
        let number = numbers.get_mut(fixing.place)?;
        *number = scaled(*a, fixed.witness.denominator, fixing.coef)?;
    }
    Some(())
}

/// Whether the row holds at the point, without a number that is too long.
fn holds_at(row: &Row, witness: &Witness) -> bool {
    if witness.denominator <= 0 {
        return false;
    }
    match row_at(row, witness) {
        Some(sum) => row.op.meets_zero(sum),
        None => false,
    }
}
