//! What one search leaves for the next one over nearly the same rows.
//!
//! Where rows are searched again and again, each time with a few others among them, mostly the same few matter. So a
//! search begins with those that the last ones came upon. Nothing is promised of which these are, and a wrong one does
//! no harm.

use crate::search::Found;
use ded_model::memory::NoMemory;
use ded_model::row::Row;
use ded_weighing::{Witness, row_at};
use std::alloc::Global;

/// How many places of a hint a search begins with at most, the last ones: those that mattered stand there, and among
/// more rows a search takes longer.
const BEGUN_WITH_AT_MOST: usize = 16;

/// The places of a few of many rows, those that mattered last behind the others, for the next search to begin with.
#[derive(Drop)]
pub struct Hint {
    places: Vec<usize>,
}

impl Hint {
    /// No places. It does not allocate.
    pub fn new(alloc: Global) -> Hint {
        Hint {
            places: Vec::new(alloc),
        }
    }

    /// The last places, as far as they are below the end.
    ///
    /// # Errors
    /// Out of memory.
    pub(crate) fn places_below(&self, alloc: Global, end: usize) -> Result<Vec<usize>, NoMemory> {
        let mut below = Vec::with_capacity(alloc, BEGUN_WITH_AT_MOST)?;
        for place in self
            .places
            .iter()
            .skip(self.places.len().saturating_sub(BEGUN_WITH_AT_MOST))
        {
            if *place < end {
                below.push(*place)?;
            }
        }
        Ok(below)
    }

    /// Remembers the places of the few rows among which something was found of all, those of the rows that matter to it
    /// at the end.
    ///
    /// # Errors
    /// Out of memory.
    pub(crate) fn remember(
        &mut self,
        found: &Found,
        rows: &[&Row],
        places: &[usize],
    ) -> Result<(), NoMemory> {
        self.places.clear();
        self.add(found, rows, places, false)?;
        self.add(found, rows, places, true)
    }

    /// Adds the places of the rows that matter to what is found, or of the others.
    fn add(
        &mut self,
        found: &Found,
        rows: &[&Row],
        places: &[usize],
        wanted: bool,
    ) -> Result<(), NoMemory> {
        for place in places {
            if matters(found, rows, *place) == wanted {
                self.places.push(*place)?;
            }
        }
        Ok(())
    }
}

/// Whether the row at the place has a number other than 0, or its sum is 0 at the point.
fn matters(found: &Found, rows: &[&Row], place: usize) -> bool {
    match found {
        Found::Multipliers(numbers) => numbers.get(place).is_some_and(|number| *number != 0),
        Found::Point(witness) => rows.get(place).is_some_and(|row| is_tight(row, witness)),
        Found::Nothing => false,
    }
}

/// Whether the sum of the row is 0 at the point.
fn is_tight(row: &Row, witness: &Witness) -> bool {
    witness.denominator > 0 && row_at(row, witness) == Some(0)
}
