//! Tuples over the slots of a scan, read as tuples over columns.
ghost use Rattle.std.specs.Prelude.{◌≡◌, IfOk};
ghost use Rattle.ded_query.specs.Columns.{slot_columns};
ghost use Rattle.ded_query.specs.Windows.{IsOverSlots, IsAtColumns};

use ded_atoms::{Atoms, laws};
use ded_genrel::renamed_conj;
use ded_model::memory::NoMemory;
use ded_model::slot::{Slot, Slots};
use ded_model::tuple::Tuple;
use ded_tuple::normal_tuple;
use std::alloc::{AllocError, Global};

/// A tuple over slots as one over columns: the slot at place `i` of the list is read as column `i`. It holds at the
/// values of columns exactly where the tuple does at those of the slots that they are read into.
///
/// # Errors
/// Out of memory, also where a column would have no number.
pub(crate) fn at_columns(alloc: Global, tuple: &Tuple, slots: &Slots) -> Result<Tuple, NoMemory>
    requires { IsOverSlots slots.now tuple.now }
    ensures { IfOk result (IsAtColumns slots.now tuple.now) }
{
    laws::tuples_are_conjunctions();
    laws::normal_tuples();
    let _ = &tuple.atoms; // for its invariant
    let _ = &slots.list; // for its invariant
    let columns = slot_columns(alloc, &slots.list)?;
    let atoms = renamed_conj::<Atoms>(alloc, &tuple.atoms, &columns)?;
    normal_tuple(alloc, atoms)
}

/// Each slot with the column that is read into it, by number from 0.
///
/// # Errors
/// Out of memory, also where a column would have no number.
fn slot_columns(alloc: Global, slots: &[Slot]) -> Result<Vec<(Slot, Slot)>, NoMemory>
    ensures { IfOk result (λ v. v.items ≡ slot_columns 0 slots.now) }
{
    let mut pairs = Vec::with_capacity(alloc, slots.len())?;
    let mut number: u32 = 0;
    for slot in slots {
        let column = Slot {
            number,
            sort: slot.sort,
        };
        pairs.push((*slot, column))?;
        number = number.checked_add(1).ok_or(AllocError)?;
    }
    Ok(pairs)
}
