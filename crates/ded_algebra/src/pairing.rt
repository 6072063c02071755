//! Columns, paired with the slots that they are read into.
ghost use Rattle.std.specs.Prelude.{◌≡◌, IfOk};
ghost use Rattle.ded_algebra.specs.Columns.{column_pairs};

use ded_model::memory::NoMemory;
use ded_model::slot::Slot;
use std::alloc::{AllocError, Global};

/// Each column, by number from 0, with the slot that it is read into.
///
/// # Errors
/// Out of memory, also where a column would have no number.
pub fn column_pairs(alloc: Global, slots: &[Slot]) -> Result<Vec<(Slot, Slot)>, NoMemory>
    ensures { IfOk result (λ v. v.items ≡ column_pairs 0 slots.now) }
{
    let mut pairs = Vec::with_capacity(alloc, slots.len())?;
    let mut number: u32 = 0;
    for slot in slots {
        let column = Slot {
            number,
            sort: slot.sort,
        };
        pairs.push((column, *slot))?;
        number = number.checked_add(1).ok_or(AllocError)?;
    }
    Ok(pairs)
}
