//! Joins.
ghost use Rattle.std.specs.Prelude.{◌≡◌, ◌+◌, ◌-◌, ◌<◌, ◌^◌, min, length, IfOk};
ghost use Rattle.ded_genrel.specs.Operations.{IsMeet};
ghost use Rattle.ded_join.specs.Near.{AreNearPairs, AreAllPairs};
ghost use Rattle.ded_join.specs.Picks.{IsIndexOver};
ghost use Rattle.ded_genrel.specs.Rounds.{AreRational};

use crate::indexing::{IndexedList, index_over};
use crate::near::{Taken, near_by};
use ded_genrel::GenRel;
use ded_index::BoxIndex;
use ded_model::memory::NoMemory;
use ded_model::slot::Slot;
use ded_theory::Theory;
use std::alloc::Global;

/// A list that holds where both do. It pairs conjunctions whose bounds on the slots share values, in the order of
/// `GenRel::meet`; where no slots are given, or the second list has 2^32 conjunctions or more, it is `meet`. Else, of
/// conjunctions that aren't wide, it pairs only those that hold somewhere and whose exact bounds at each slot share a
/// value.
///
/// # Errors
/// Out of memory.
pub fn join<T: Theory>(
    alloc: Global,
    a: &GenRel<T>,
    b: &GenRel<T>,
    slots: &[Slot],
) -> Result<GenRel<T>, NoMemory>
    requires { AreRational slots.now }
    ensures is { IfOk result (λ r. IsMeet T.holds T.mentions T.lines a.now b.now r) }
    ensures near { IfOk result (λ r. 0 < length slots.now → length b.now < 2 ^ 32
        → AreNearPairs T.holds T.mentions T.lines slots.now a.now b.now r) }
    ensures whole { IfOk result (λ r. AreAllPairs slots.now a.now b.now r) }
{
    let mut met = 0;
    join_counted(alloc, a, b, slots, &mut met)
}

/// A list that holds where both do, as [`join`] makes it. `met` grows by the count of pairs that are met, up to the
/// greatest `u64`.
///
/// # Errors
/// Out of memory.
pub fn join_counted<T: Theory>(
    alloc: Global,
    a: &GenRel<T>,
    b: &GenRel<T>,
    slots: &[Slot],
    met: &mut u64,
) -> Result<GenRel<T>, NoMemory>
    requires { AreRational slots.now }
    ensures is { IfOk result (λ r. IsMeet T.holds T.mentions T.lines a.now b.now r) }
    ensures near { IfOk result (λ r. 0 < length slots.now → length b.now < 2 ^ 32
        → AreNearPairs T.holds T.mentions T.lines slots.now a.now b.now r) }
    ensures whole { IfOk result (λ r. AreAllPairs slots.now a.now b.now r) }
    ensures met { IfOk result (λ r. met.new ≡ min (met.old + length r) (2 ^ 64 - 1)) }
{
    let index = index_over(alloc, b, slots)?;
    join_over(alloc, a, b, slots, &index, met)
}

/// The list of [`join`], by an index over the second list, which is made once for many first lists. `met` grows as in
/// [`join_counted`].
///
/// # Errors
/// Out of memory.
pub fn join_over<T: Theory>(
    alloc: Global,
    a: &GenRel<T>,
    b: &GenRel<T>,
    slots: &[Slot],
    index: &Option<BoxIndex>,
    met: &mut u64,
) -> Result<GenRel<T>, NoMemory>
    requires rational { AreRational slots.now }
    requires index { IsIndexOver T.holds T.mentions T.lines slots.now b.now index.now }
    ensures is { IfOk result (λ r. IsMeet T.holds T.mentions T.lines a.now b.now r) }
    ensures near { IfOk result (λ r. 0 < length slots.now → length b.now < 2 ^ 32
        → AreNearPairs T.holds T.mentions T.lines slots.now a.now b.now r) }
    ensures whole { IfOk result (λ r. AreAllPairs slots.now a.now b.now r) }
    ensures met { IfOk result (λ r. met.new ≡ min (met.old + length r) (2 ^ 64 - 1)) }
{
    match index {
        Some(index) => {
            let list = IndexedList {
                list: b,
                slots,
                index,
            };
            near_by(alloc, a, &list, Taken::All, met)
        }
        None => {
            let pairs = a.meet(b)?;
            *met = met.saturating_add(pairs.list().len() as u64);
            Ok(pairs)
        }
    }
}
