//! A relation changed, and with it the lists that are held.
ghost use Rattle.std.specs.Prelude.{IfOk, OnErr};
ghost use Rattle.ded_database.specs.Changes.{before, after, inserted_tuple, deleted_tuple, IsChange, IsToldDelete};
ghost use Rattle.ded_database.specs.Held.{IsUpheld};
ghost use Rattle.ded_database.specs.Upkeep.{LeavesOthers, IsReady};

use crate::change::Change;
use crate::mark::Mark;
use crate::renewing::renew_all;
use crate::taking::take_stale;
use ded_algebra::{Evaluate, Given};
use ded_model::memory::NoMemory;
use std::alloc::{AllocError, Global};

/// Makes the lists that the change concerns, over the catalogue as it will be, behind the others. Gives how many the
/// others are, which are right over the catalogue before as well.
///
/// # Errors
/// Out of memory. What is left is right over the catalogue before, and has the lists that the change doesn't concern.
pub(crate) fn bring_up_to_date<E: Evaluate>(
    alloc: Global,
    change: &Change<'_, '_>,
    marks: &[Mark],
    held: &mut Given,
    added: &mut u64,
) -> Result<usize, NoMemory>
    requires change { IsChange (before change.now) (after change.now) change.now.name.now (inserted_tuple change.now) }
    requires told { IsToldDelete (before change.now) (after change.now) change.now.name.now (deleted_tuple change.now) }
    requires upheld { IsUpheld (before change.now) marks.now held.old }
    ensures ok { IfOk result (λ count. IsReady (before change.now) (after change.now) change.now.name.now
        (inserted_tuple change.now) marks.now held.old held.new count) }
    ensures err { OnErr result (IsUpheld (before change.now) marks.now held.new) }
    ensures left { OnErr result (LeavesOthers (before change.now) change.now.name.now held.old held.new) }
{
    let mut stale = Given::new(alloc);
    take_stale(change.catalogue, marks, change.name, held, &mut stale)?;
    let count = held.count();
    match renew_all::<E>(alloc, change, marks, &mut stale, held, added) {
        Ok(()) => Ok(count),
        Err(AllocError) => {
            held.keep_first(count);
            Err(AllocError)
        }
    }
}
