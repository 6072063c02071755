//! The rows and the text atoms of a tuple, and the slots that rows mention.
ghost use Rattle.std.specs.Prelude.{◌≡◌, [], IfOk, OnOk};
ghost use Rattle.ded_model.specs.Row.{row_mentions};
ghost use Rattle.ded_theory.specs.Conjunctions.{conj_mentions};
ghost use Rattle.ded_theory.specs.Both.{firsts, seconds};
ghost use Rattle.ded_shapes.specs.Projections.{with_others, with_all_others};

use ded_model::memory::NoMemory;
use ded_model::row::Row;
use ded_model::slot::{Slot, stands_in};
use ded_model::tuple::{Atom, BothAtom, ThemeAtom};
use std::alloc::Global;

/// Copies of the rows.
///
/// # Errors
/// Out of memory.
pub(crate) fn rows_of(alloc: Global, atoms: &[Atom]) -> Result<Vec<Row>, NoMemory>
    ensures { IfOk result (λ v. v.items ≡ firsts atoms.now) }
{
    let mut rows = Vec::new(alloc);
    for atom in atoms {
        if let BothAtom::First(row) = atom {
            rows.push(row.copy()?)?;
        }
    }
    Ok(rows)
}

/// Copies of the text atoms.
///
/// # Errors
/// Out of memory.
pub(crate) fn texts_of(alloc: Global, atoms: &[Atom]) -> Result<Vec<ThemeAtom>, NoMemory>
    ensures { IfOk result (λ v. v.items ≡ seconds atoms.now) }
{
    let mut texts = Vec::new(alloc);
    for atom in atoms {
        if let BothAtom::Second(text) = atom {
            texts.push(text.copy()?)?;
        }
    }
    Ok(texts)
}

/// The slots that the rows mention, but for x and y, each once.
///
/// # Errors
/// Out of memory.
pub(crate) fn other_slots(
    alloc: Global,
    rows: &[Row],
    x: Slot,
    y: Slot,
) -> Result<Vec<Slot>, NoMemory>
    ensures { IfOk result (λ v. v.items ≡ with_all_others x y [] rows.now) }
{
    let mut others = Vec::new(alloc);
    for row in rows {
        add_others(&mut others, row.coefs.list(), x, y)?;
    }
    Ok(others)
}

/// Adds the slots of the pairs, but for x and y and those that are there already.
fn add_others(
    others: &mut Vec<Slot>,
    list: &[(Slot, i128)],
    x: Slot,
    y: Slot,
) -> Result<(), NoMemory>
    ensures { OnOk result (others.new.items ≡ with_others x y others.old.items list.now) }
{
    for (next, _) in list {
        if !next.is_same(x) && !next.is_same(y) && !stands_in(others, *next) {
            others.push(*next)?;
        }
    }
    Ok(())
}

/// Whether some row mentions the slot.
pub(crate) fn mention(rows: &[Row], slot: Slot) -> bool
    ensures { result ≡ conj_mentions row_mentions rows.now slot }
{
    rows.iter().any(|row| row.mentions(slot))
}
