//! The slots of rows, each once.
ghost use Rattle.std.specs.Prelude.{◌≡◌, IfOk, OnOk};
ghost use Rattle.ded_model.specs.Point.{AreDistinctSlots};
ghost use Rattle.ded_weighing.specs.Columns.{lent, HasAllSlots};
ghost use Rattle.ded_weighing.specs.Gathered.{with_slot, with_slots, AreOf};

use ded_model::memory::NoMemory;
use ded_model::row::Row;
use ded_model::slot::{Slot, stands_in};
use std::alloc::Global;

/// The slots of the rows, each once.
///
/// # Errors
/// Out of memory.
pub fn slots_of(alloc: Global, rows: &[&Row]) -> Result<Vec<Slot>, NoMemory>
    ensures all { IfOk result (λ slots. HasAllSlots slots.items (lent rows.now)) }
    ensures only { IfOk result (λ slots. AreOf (lent rows.now) slots.items) }
    ensures distinct { IfOk result (λ slots. AreDistinctSlots slots.items) }
{
    let mut slots = Vec::new(alloc);
    for row in rows {
        add_slots(&mut slots, row.coefs.list())?;
    }
    Ok(slots)
}

/// Adds the slots that don't stand there yet.
fn add_slots(slots: &mut Vec<Slot>, coefs: &[(Slot, i128)]) -> Result<(), NoMemory>
    ensures { OnOk result (slots.new.items ≡ with_slots slots.old.items coefs.now) }
{
    for (slot, _) in coefs {
        add_slot(slots, *slot)?;
    }
    Ok(())
}

/// Adds the slot unless it stands there.
fn add_slot(slots: &mut Vec<Slot>, slot: Slot) -> Result<(), NoMemory>
    ensures { OnOk result (slots.new.items ≡ with_slot slots.old.items slot) }
{
    if !stands_in(slots, slot) {
        slots.push(slot)?;
    }
    Ok(())
}
