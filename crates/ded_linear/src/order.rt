//! Which slots are still to be eliminated, and which one of them first.
ghost use Rattle.std.specs.Prelude.{◌≡◌, ◌<◌, [], IfOk, OnOk, length};
ghost use Rattle.ded_model.specs.Row.{row_mentions};
ghost use Rattle.ded_theory.specs.Conjunctions.{conj_mentions};
ghost use Rattle.ded_linear.specs.SlotLists.{with_slots, with_all_slots, IsTaken};

use ded_model::memory::NoMemory;
use ded_model::row::{Row, RowOp};
use ded_model::slot::{Slot, stands_in};
use std::alloc::Global;

/// The slots that the rows mention, but for the one, each once.
///
/// # Errors
/// Out of memory.
pub fn other_slots(alloc: Global, rows: &[Row], slot: Slot) -> Result<Vec<Slot>, NoMemory>
    ensures { IfOk result (λ others. others.items ≡ with_all_slots slot [] rows.now) }
{
    let mut others = Vec::new(alloc);
    for row in rows {
        add_slots(&mut others, slot, row)?;
    }
    Ok(others)
}

/// Adds the slots that a row mentions, but for the one and those that are there already.
fn add_slots(others: &mut Vec<Slot>, slot: Slot, row: &Row) -> Result<(), NoMemory>
    ensures { OnOk result (others.new.items ≡ with_slots slot others.old.items row.now.coefs) }
{
    for (next, _) in row.coefs.list() {
        if !next.is_same(slot) && !stands_in(others, *next) {
            others.push(*next)?;
        }
    }
    Ok(())
}

/// Whether some row mentions the slot.
pub fn mention(rows: &[Row], slot: Slot) -> bool
    ensures { result ≡ conj_mentions row_mentions rows.now slot }
{
    rows.iter().any(|row| row.mentions(slot))
}

/// Takes from the list the slot whose elimination pairs the fewest rows.
pub fn take_cheapest(rows: &[Row], slots: &mut Vec<Slot>) -> Slot
    requires { 0 < length slots.old.items }
    ensures { IsTaken slots.old.items result slots.new.items }
{
    let at = cheapest(rows, slots);
    slots.swap_remove(at)
}

/// The place in the list of the slot whose elimination pairs the fewest rows.
fn cheapest(rows: &[Row], slots: &[Slot]) -> usize
    requires { 0 < length slots.now }
    ensures { result < length slots.now }
{
    let mut best = 0;
    let mut least = pairs(rows, slots[0]);
    for i in 1..slots.len() {
        let count = pairs(rows, slots[i]);
        if count < least {
            best = i;
            least = count;
        }
    }
    best
}

/// The slot whose elimination pairs the most rows, to be kept to the end: one that the rows mention, where they mention
/// any.
///
/// # Errors
/// Out of memory.
pub fn costliest(alloc: Global, rows: &[Row]) -> Result<Slot, NoMemory> {
    let mut best = some_slot(rows);
    let mut most = pairs(rows, best);
    for slot in &other_slots(alloc, rows, best)? {
        let count = pairs(rows, *slot);
        if count > most {
            best = *slot;
            most = count;
        }
    }
    Ok(best)
}

/// A slot that the rows mention, where they mention any.
fn some_slot(rows: &[Row]) -> Slot {
    for row in rows {
        if let Some((slot, _)) = row.coefs.list().first() {
            return *slot;
        }
    }
    Slot::default()
}

/// How many rows the elimination of the slot makes of those that mention it: with an equality among them one of each,
/// without one a row of each pair that bounds it from above and from below.
fn pairs(rows: &[Row], slot: Slot) -> u64 {
    let mut equal = 0_u64;
    let mut above = 0_u64;
    let mut below = 0_u64;
    for row in rows {
        let a = row.coefs.at(slot);
        match row.op {
            RowOp::Zero if a != 0 => equal = equal.saturating_add(1),
            RowOp::AtMost | RowOp::Below if a > 0 => above = above.saturating_add(1),
            RowOp::AtMost | RowOp::Below if a < 0 => below = below.saturating_add(1),
            _ => {}
        }
    }
    if equal > 0 {
        equal.saturating_add(above).saturating_add(below)
    } else {
        above.saturating_mul(below)
    }
}
