//! Scans: the tuples of a relation, its columns read into slots.
ghost use Rattle.std.specs.Prelude.{◌≡◌, true, [], IfOk};
ghost use Rattle.ded_model.specs.declared.slot.Slot.{Slot};
ghost use Rattle.ded_model.specs.Entries.{entry_of};
ghost use Rattle.ded_model.specs.Logic.{atom};
ghost use Rattle.ded_model.specs.PlanForm.{scan};
ghost use Rattle.ded_model.specs.Renaming.{renamed, IsOneToOne, KeepsSorts};
ghost use Rattle.ded_genrel.specs.Lists.{conjs_hold, conjs_mention, conjs_lines};
ghost use Rattle.ded_genrel.specs.Operations.{IsRenaming};
ghost use Rattle.ded_model.specs.Cell.{conj_holds};
ghost use Rattle.ded_algebra.specs.Evaluation.{IsScannedFrom, IsEvaluationWithin};
ghost use Rattle.ded_eval.specs.Finding.{IsFoundIn, IsWholeIn};
ghost use Rattle.ded_algebra.specs.Columns.{column_pairs};

use crate::window::columns_window;
use ded_algebra::{Relations, column_pairs, near_in};
use ded_atoms::{OfTuples, conjunctions};
use ded_genrel::GenRel;
use ded_model::memory::NoMemory;
use ded_model::name::Name;
use ded_model::slot::{Slot, Slots};
use ded_theory::Theory;
use std::alloc::Global;

/// The tuples of a name, its columns read into the slots: at least all that hold somewhere in the window.
///
/// # Errors
/// Out of memory.
pub(crate) fn scanned<T: OfTuples, R: Relations>(
    alloc: Global,
    name: &Name,
    slots: &Slots,
    relations: &R,
    window: &[T::Atom],
) -> Result<GenRel<T>, NoMemory>
    requires { IsScannedFrom T.reads (entry_of (R.catalogue relations.now).entries name.now) slots.now }
    ensures { IfOk result (λ r. IsEvaluationWithin (R.catalogue relations.now) (atom (scan name.now slots.now))
        (conj_holds T.holds window.now) (conjs_hold T.holds r) (conjs_mention T.mentions r) (conjs_lines T.lines r)) }
{
    relations.formed();
    let columns = columns_window::<T>(alloc, window, &slots.list)?;
    let near = near_in(alloc, relations, name, &columns);
    drop(columns);
    let tuples = near?.unwrap();
    in_slots(alloc, conjunctions::<T>(alloc, &tuples)?, slots)
}

/// The first tuples of a name, and whether they are all that hold somewhere in the window.
#[derive(Drop)]
pub(crate) struct FirstTuples<T: Theory> {
    pub(crate) list: GenRel<T>,
    pub(crate) is_whole: bool,
}

/// The first tuples of a name that hold somewhere in the window, or are lent as such, up to `count` of them, with their
/// columns read into the slots.
///
/// # Errors
/// Out of memory.
pub(crate) fn first_scanned<T: OfTuples, R: Relations>(
    alloc: Global,
    name: &Name,
    slots: &Slots,
    relations: &R,
    window: &[T::Atom],
    count: usize,
) -> Result<FirstTuples<T>, NoMemory>
    requires { IsScannedFrom T.reads (entry_of (R.catalogue relations.now).entries name.now) slots.now }
    ensures found { IfOk result (λ s. IsFoundIn T.holds (R.catalogue relations.now) (conj_holds T.holds window.now)
        (atom (scan name.now slots.now)) s.list) }
    ensures whole { IfOk result (λ s. s.is_whole ≡ true
        → IsWholeIn T.holds (R.catalogue relations.now) (conj_holds T.holds window.now)
        (atom (scan name.now slots.now)) s.list) }
{
    relations.formed();
    let columns = columns_window::<T>(alloc, window, &slots.list)?;
    let near = near_in(alloc, relations, name, &columns);
    drop(columns);
    let mut tuples = near?.unwrap();
    let is_whole = tuples.len() <= count;
    tuples.truncate(count);
    let list = in_slots(alloc, conjunctions::<T>(alloc, &tuples)?, slots)?;
    Ok(FirstTuples { list, is_whole })
}

/// The list with its columns read into the slots, as [`GenRel::rename`] gives it. It stays as it is where each column
/// is its slot.
///
/// # Errors
/// Out of memory.
fn in_slots<T: Theory>(alloc: Global, list: GenRel<T>, slots: &Slots) -> Result<GenRel<T>, NoMemory>
    requires one { IsOneToOne (column_pairs 0 slots.now) (conjs_mention T.mentions list) }
    requires sorts { KeepsSorts (column_pairs 0 slots.now) (conjs_mention T.mentions list) }
    requires stays { IsRenaming [] (conjs_hold T.holds list) (conjs_hold T.holds list) (conjs_mention T.mentions list)
        (conjs_mention T.mentions list) (conjs_lines T.lines list) (conjs_lines T.lines list) }
    ensures { IfOk result (λ r. IsRenaming (column_pairs 0 slots.now) (conjs_hold T.holds list) (conjs_hold T.holds r)
        (conjs_mention T.mentions list) (conjs_mention T.mentions r) (conjs_lines T.lines list)
        (conjs_lines T.lines r)) }
{
    if are_columns(&slots.list) {
        return Ok(list);
    }
    let pairs = column_pairs(alloc, &slots.list)?;
    list.rename(&pairs)
}

/// Whether each slot is found to have the number of the column that is read into it.
fn are_columns(slots: &[Slot]) -> bool
    ensures { result ≡ true → (s : Slot) → renamed (column_pairs 0 slots.now) s ≡ s }
{
    let mut number = 0;
    for slot in slots {
        if slot.number != number {
            return false;
        }
        let Some(next) = number.checked_add(1) else {
            return false;
        };
        number = next;
    }
    true
}
