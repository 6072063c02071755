//! The rows of arguments, and the numbers of slots.
ghost use Rattle.std.specs.Prelude.{◌≡◌, ◌≤◌, ◌<◌, ◌^◌, pos, [], IfOk};
ghost use lib.IntN.{neg_ℤ};
ghost use Rattle.ded_model.specs.declared.slot.Sort.TheVariants.{Rat};
ghost use Rattle.ded_model.specs.declared.tuple.BothAtom.TheVariants.{First};
ghost use Rattle.ded_model.specs.Coefs.{put, put_all};
ghost use Rattle.ded_model.specs.Point.{AllBytes};
ghost use Rattle.ded_model.specs.Sum.{denominator};
ghost use Rattle.ded_model.specs.Normal.{IsNormalAtom};
ghost use Rattle.ded_model.specs.Scanned.{argument_row, of_slot, above_coefs, above_place, first_free};

use ded_model::goal::{Place, SlotTerm};
use ded_model::memory::NoMemory;
use ded_model::name::Name;
use ded_model::row::{Coefs, Row, RowOp};
use ded_model::slot::Slot;
use ded_row::normal;
use std::alloc::Global;

/// The normal row that says that a rational slot above those of the sum has its value.
///
/// # Errors
/// Out of memory.
pub fn argument_row(slot: Slot, sum: &SlotTerm) -> Result<Row, NoMemory>
    requires rational { slot.sort ≡ Rat }
    requires above { above_coefs sum.now.coefs ≤ slot.number }
    ensures value { IfOk result (λ r. r ≡ argument_row slot sum.now) }
    ensures normal { IfOk result (λ r. IsNormalAtom (First r)) }
{
    let row = normal(Row {
        coefs: argument_coefs(slot, sum)?,
        constant: -sum.constant,
        op: RowOp::Zero,
    });
    let _ = row.coefs.list(); // for its invariant
    Ok(row)
}

/// The sum's coefficients with all signs turned, then the slot with the sum's denominator.
fn argument_coefs(slot: Slot, sum: &SlotTerm) -> Result<Coefs, NoMemory>
    requires rational { slot.sort ≡ Rat }
    requires above { above_coefs sum.now.coefs ≤ slot.number }
    ensures { IfOk result (λ cs. cs ≡ put slot (pos (denominator sum.now.over))
        (put_all (neg_ℤ (pos 1)) sum.now.coefs [])) }
{
    let _ = sum.coefs.list(); // for its invariant
    let mut coefs = sum.coefs.copy()?;
    coefs.divide(-1);
    coefs.push(slot, sum.over)?;
    Ok(coefs)
}

/// The normal row that says that two rational slots have the same value.
///
/// # Errors
/// Out of memory.
pub fn same_row(alloc: Global, slot: Slot, other: Slot) -> Result<Row, NoMemory>
    requires rational { slot.sort ≡ Rat }
    requires other { other.sort ≡ Rat }
    requires above { other.number < slot.number }
    ensures value { IfOk result (λ r. r ≡ argument_row slot (of_slot other)) }
    ensures normal { IfOk result (λ r. IsNormalAtom (First r)) }
{
    let mut coefs = Coefs::new(alloc);
    coefs.push(other, 1)?;
    let sum = SlotTerm {
        coefs,
        constant: 0,
        over: 1,
    };
    argument_row(slot, &sum)
}

/// A text of the given bytes.
///
/// # Errors
/// Out of memory.
pub fn quoted(alloc: Global, bytes: &[u8]) -> Result<Name, NoMemory>
    ensures text { IfOk result (λ n. n ≡ bytes.now) }
    ensures bytes { IfOk result (λ n. AllBytes n) }
{
    Ok(Name {
        bytes: Vec::from_slice(alloc, bytes)?,
    })
}

/// One above the numbers of the slots of places, 0 where there are none.
pub fn first_free(places: &[Place]) -> u64
    ensures value { result ≡ first_free places.now }
    ensures short { result ≤ 2 ^ 32 }
{
    let mut above = 0;
    for place in places {
        above = above_place(place).max(above);
    }
    above
}

/// One above the numbers of the slots of an argument, 0 where it has none.
fn above_place(place: &Place) -> u64
    ensures value { result ≡ above_place place.now }
    ensures short { result ≤ 2 ^ 32 }
{
    match place {
        Place::At(slot) => u64::from(slot.number) + 1,
        Place::Value(sum) => above_coefs(sum.coefs.list()),
        Place::Quoted(_) => 0,
    }
}

/// One above the numbers of the slots of coefficients, 0 where there are none.
fn above_coefs(coefs: &[(Slot, i128)]) -> u64
    ensures value { result ≡ above_coefs coefs.now }
    ensures short { result ≤ 2 ^ 32 }
{
    let mut above = 0;
    for (slot, _) in coefs {
        above = (u64::from(slot.number) + 1).max(above);
    }
    above
}
