//! The search over a few of many rows.
//!
//! Of many rows most don't matter: a few show that there is no point, or lead to one. So the search begins with a few,
//! those of a hint if it has some, and those that the point found last breaks most are added, until it breaks none, or
//! the few have no point.

use crate::hint::Hint;
use crate::search::{Found, find_at_once};
use ded_model::memory::NoMemory;
use ded_model::row::Row;
use ded_weighing::{Witness, row_at};
use std::alloc::Global;

/// How many rows the search begins with, about, where the hint has fewer: some more than there are slots mostly, so
/// that they have a corner, and few enough that a table of them is made and pivoted at once. It wasn't measured against
/// other numbers.
const FIRST_ROWS: usize = 8;

/// How many rows are added at a time, about: those that the point breaks most, of as many stretches. It wasn't measured
/// against other numbers.
const ADDED_ROWS: usize = 4;

/// How often rows are added before all are searched at once.
const ROUNDS: usize = 64;

/// Looks among a few of the rows, those of the hint first, and more of them, as long as that helps. The hint is then
/// those that were looked among.
///
/// # Errors
/// Out of memory.
pub(crate) fn find_by_few(
    alloc: Global,
    rows: &[&Row],
    hint: &mut Hint,
) -> Result<Found, NoMemory> {
    let mut places = first_places(alloc, rows.len(), hint)?;
    for _ in 0..ROUNDS {
        if let Some(found) = look(alloc, rows, &mut places)? {
            hint.remember(&found, rows, &places)?;
            return Ok(found);
        }
    }
    find_at_once(alloc, rows)
}

/// The places of the hint, or a few others where it has fewer, and the last one of so many.
///
/// # Errors
/// Out of memory.
fn first_places(alloc: Global, count: usize, hint: &Hint) -> Result<Vec<usize>, NoMemory> {
    let last = count.saturating_sub(1);
    let mut places = hint.places_below(alloc, last)?;
    if places.len() < FIRST_ROWS {
        add_spaced(&mut places, last)?;
    }
    places.push(last)?;
    Ok(places)
}

/// Adds a few places below the end, in equal distances, unless they stand there.
///
/// # Errors
/// Out of memory.
fn add_spaced(places: &mut Vec<usize>, end: usize) -> Result<(), NoMemory> {
    for place in (0..end).step_by((end / FIRST_ROWS).max(1)) {
        if !places.contains(&place) {
            places.push(place)?;
        }
    }
    Ok(())
}

/// Looks among the rows at the places, and where their point breaks others, adds some of these. Gives what is found of
/// all rows.
///
/// # Errors
/// Out of memory.
fn look(alloc: Global, rows: &[&Row], places: &mut Vec<usize>) -> Result<Option<Found>, NoMemory> {
    let few = picked(alloc, rows, places)?;
    match find_at_once(alloc, &few)? {
        Found::Point(witness) => {
            let before = places.len();
            add_broken(rows, &witness, places)?;
            Ok(if places.len() == before {
                Some(Found::Point(witness))
            } else {
                None
            })
        }
        Found::Multipliers(numbers) => {
            let all = spread(alloc, &numbers, places, rows.len())?;
            Ok(Some(Found::Multipliers(all)))
        }
        Found::Nothing => Ok(Some(Found::Nothing)),
    }
}

/// The rows at the places.
fn picked<'a>(alloc: Global, rows: &[&'a Row], places: &[usize]) -> Result<Vec<&'a Row>, NoMemory> {
    let mut few = Vec::with_capacity(alloc, places.len())?;
    for place in places {
        if *place < rows.len() {
            few.push(rows[*place])?;
        }
    }
    Ok(few)
}

/// The numbers of the rows at the places, and 0 for each other row.
fn spread(
    alloc: Global,
    numbers: &[i128],
    places: &[usize],
    count: usize,
) -> Result<Vec<i128>, NoMemory> {
    let mut all = Vec::from_elem(alloc, 0, count)?;
    for (number, place) in numbers.iter().zip(places) {
        if *place < all.len() {
            all[*place] = *number;
        }
    }
    Ok(all)
}

/// Adds the places of some rows that the point breaks: of each of a few stretches that which it breaks most.
fn add_broken(rows: &[&Row], witness: &Witness, places: &mut Vec<usize>) -> Result<(), NoMemory> {
    let stretch = (rows.len() / ADDED_ROWS).max(1);
    for start in (0..rows.len()).step_by(stretch) {
        if let Some(place) = most_broken(rows, witness, start, stretch) {
            if !places.contains(&place) {
                places.push(place)?;
            }
        }
    }
    Ok(())
}

/// The place of the row that the point breaks most, of so many from the start on; none where it breaks none of them.
fn most_broken(rows: &[&Row], witness: &Witness, start: usize, count: usize) -> Option<usize> {
    let mut most = None;
    let mut by = 0;
    for place in start..start.saturating_add(count).min(rows.len()) {
        if let Some(size) = broken_by(rows[place], witness) {
            if most.is_none() || by < size {
                most = Some(place);
                by = size;
            }
        }
    }
    most
}

/// By how much the point breaks the row; none where the row holds there.
fn broken_by(row: &Row, witness: &Witness) -> Option<u128> {
    if witness.denominator < 0 {
        return Some(u128::MAX);
    }
    match row_at(row, witness) {
        Some(sum) => {
            if row.op.meets_zero(sum) {
                None
            } else {
                Some(sum.unsigned_abs())
            }
        }
        None => Some(u128::MAX),
    }
}
