//! Tuples with their numbers.
ghost use Rattle.std.specs.Prelude.{◌≡◌, IfOk};

use ded_model::memory::NoMemory;
use ded_model::tuple::Tuple;
use ded_packed::Packed;
use std::alloc::Global;
use std::collections::BTreeMap;
use std::marker::Model;

/// Tuples with their numbers, which ascend. Contracts see the list of the pairs.
#[derive(Drop)]
pub struct StoredTuples {
    pub list: Vec<(u32, Tuple)>,
}

impl Model for StoredTuples {
    ghost use Rattle.std.specs.Prelude.{List, ℕ};
    ghost use Rattle.ded_model.specs.declared.tuple.Tuple.{Tuple};

    ghost Value = { List (ℕ × Tuple) };

    ghost view = { λ t. t.list.items };
}

impl StoredTuples {
    /// A copy of these tuples.
    ///
    /// # Errors
    /// Out of memory.
    pub fn copy_of(alloc: Global, stored: &BTreeMap<u32, Packed>) -> Result<StoredTuples, NoMemory>
        ensures { IfOk result (λ t. t ≡ stored.now.entries) }
    {
        let mut list = Vec::with_capacity(alloc, stored.len())?;
        for (number, packed) in stored {
            list.push((*number, packed.unpack(alloc)?))?;
        }
        Ok(StoredTuples { list })
    }
}
