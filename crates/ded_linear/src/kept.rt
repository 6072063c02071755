//! Rows that are kept of many, one after another.
ghost use Rattle.std.specs.Prelude.{◌≡◌, ◌∷◌, ◌++◌, [], IfOk};

use crate::directions::Directions;
use ded_model::memory::NoMemory;
use ded_model::row::Row;
use std::alloc::Global;

/// Rows that are kept, and those of them over two slots by their directions.
#[derive(Drop)]
pub(crate) struct KeptByDirection {
    pub rows: Vec<Row>,
    pub directions: Directions,
}

impl KeptByDirection {
    /// None yet of the rows. It does not allocate.
    pub fn new(alloc: Global, rows: &[Row]) -> KeptByDirection
        ensures { result.rows.items ≡ [] }
    {
        KeptByDirection {
            rows: Vec::new(alloc),
            directions: Directions::new(alloc, rows),
        }
    }

    /// Adds the row at the end.
    ///
    /// # Errors
    /// Out of memory.
    pub fn push(&mut self, row: Row) -> Result<(), NoMemory>
        ensures { IfOk result (λ _. self.new.rows.items ≡ self.old.rows.items ++ row ∷ []) }
    {
        self.directions.enter(&row, self.rows.len())?;
        self.rows.push(row)?;
        Ok(())
    }
}
