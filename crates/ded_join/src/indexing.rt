//! An index over the boxes around conjunctions.
ghost use Rattle.std.specs.Prelude.{◌<◌, ◌^◌, length, IfOk};
ghost use Rattle.ded_genrel.specs.Rounds.{AreRational};
ghost use Rattle.ded_join.specs.Picks.{IsIndexOf, IsIndexOver};

use ded_genrel::{GenRel, box_round};
use ded_index::BoxIndex;
use ded_model::memory::NoMemory;
use ded_model::slot::Slot;
use ded_theory::Theory;
use std::alloc::Global;

/// More conjunctions than an index has numbers for.
pub(crate) const TOO_MANY: usize = 1 << 32;

/// A list, and the index over the boxes around its conjunctions at the slots, by which those that are near are found.
#[derive(Drop)]
pub(crate) struct IndexedList<'a, T: Theory> {
    pub(crate) list: &'a GenRel<T>,
    pub(crate) slots: &'a [Slot],
    pub(crate) index: &'a BoxIndex,
}

/// The index over the list by which [`crate::join_over`] finds pairs. There is none where no slots are given, or the
/// list has 2^32 conjunctions or more.
///
/// # Errors
/// Out of memory.
pub fn index_over<T: Theory>(
    alloc: Global,
    list: &GenRel<T>,
    slots: &[Slot],
) -> Result<Option<BoxIndex>, NoMemory>
    requires { AreRational slots.now }
    ensures { IfOk result (λ o. IsIndexOver T.holds T.mentions T.lines slots.now list.now o) }
{
    if slots.is_empty() || list.list().len() >= TOO_MANY {
        Ok(None)
    } else {
        Ok(Some(index_of(alloc, list, slots)?))
    }
}

/// The index over the boxes around the conjunctions, under their places.
///
/// # Errors
/// Out of memory.
fn index_of<T: Theory>(
    alloc: Global,
    list: &GenRel<T>,
    slots: &[Slot],
) -> Result<BoxIndex, NoMemory>
    requires few { length list.now < 2 ^ 32 }
    requires rational { AreRational slots.now }
    ensures { IfOk result (λ x. IsIndexOf T.holds T.mentions T.lines slots.now list.now x) }
{
    let mut boxes = Vec::new(alloc);
    for conj in list.list() {
        boxes.push(box_round::<T>(alloc, conj, slots)?)?;
    }
    BoxIndex::build(alloc, &boxes)
}
