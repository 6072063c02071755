//! Copies of relations.
ghost use Rattle.std.specs.Prelude.{◌≡◌, IfOk};

use crate::relation::Relation;
use ded_model::memory::NoMemory;
use ded_model::name::Heading;
use ded_packed::Packed;
use std::alloc::{AllocError, Global};
use std::collections::BTreeMap;

impl Clone for Relation {
    ghost use Rattle.ded_relation.specs.Tuples.{IsSame};

    ghost is_clone = { IsSame };

    fn clone(&self) -> Result<Relation, AllocError> {
        let alloc = allocator_of(&self.heading);
        Ok(Relation {
            heading: self.heading.copy()?,
            inserts: self.inserts,
            tuples: copy_tuples(alloc, &self.tuples)?,
            index: self.index.copy(alloc)?,
        })
    }
}

/// The allocator that the columns are kept by.
fn allocator_of(heading: &Heading) -> Global {
    *heading.columns.allocator()
}

/// Copies of the tuples, under the same numbers.
fn copy_tuples(
    alloc: Global,
    tuples: &BTreeMap<u32, Packed>,
) -> Result<BTreeMap<u32, Packed>, NoMemory>
    ensures { IfOk result (λ ts. ts.entries ≡ tuples.now.entries) }
{
    let mut copies = BTreeMap::new(alloc);
    for (number, tuple) in tuples {
        copies.insert(*number, tuple.copy()?)?;
    }
    Ok(copies)
}
