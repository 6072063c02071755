//! Joins without pairs that hold nowhere inside of a window.
//!
//! A projection may stand between the parts of a join and the rows that tie them to each other, as where two things are
//! at one place at times that are near. These rows are in the window of the join, but no part of it reads them. Of all
//! pairs few may hold where they do.
ghost use Rattle.std.specs.Prelude.{◌≡◌, ◌++◌, ◌∷◌, [], true, IfOk, List};
ghost use Rattle.std.specs.List.{AllByRecursion};
ghost use Rattle.ded_model.specs.Cell.{conj_holds};
ghost use Rattle.ded_model.specs.Point.{Point};
ghost use Rattle.ded_join.specs.Picks.{IsIndexOver};
ghost use Rattle.ded_eval.specs.Inside.{IsInsidePart, IsMeetInside};
ghost use Rattle.ded_eval.specs.Joining.{IsJoinStep};

use crate::beside::alone;
use crate::step::JoinStep;
use ded_atoms::{AtomRef, OfTuples};
use ded_genrel::{GenRel, both_conjs};
use ded_index::BoxIndex;
use ded_join::{index_over, is_small, join_over, join_shorter};
use ded_model::memory::NoMemory;
use ded_model::row::Row;
use ded_model::slot::Slot;
use ded_theory::Verdict;
use std::alloc::Global;

/// The rows of the window that mention a slot of each list which the other list doesn't have.
///
/// # Errors
/// Out of memory.
pub(crate) fn rows_across<T: OfTuples>(
    alloc: Global,
    window: &[T::Atom],
    first: &[Slot],
    second: &[Slot],
) -> Result<Vec<T::Atom>, NoMemory>
    requires { AllByRecursion T.normal window.now }
    ensures weaker { IfOk result (λ v. (p : Point) → conj_holds T.holds window.now p ≡ true
        → conj_holds T.holds v.items p ≡ true) }
    ensures normal { IfOk result (λ v. AllByRecursion T.normal v.items) }
{
    let mut rows = Vec::new(alloc);
    for atom in window {
        if is_across(&T::lent(atom), first, second) {
            rows.push(T::copy(atom)?)?;
        }
    }
    Ok(rows)
}

/// Whether the atom is a row that mentions a slot of each list which the other list doesn't have.
fn is_across(atom: &AtomRef<'_>, first: &[Slot], second: &[Slot]) -> bool {
    match atom {
        AtomRef::Linear(row) => {
            mentions_other(row, first, second) && mentions_other(row, second, first)
        }
        AtomRef::Theme(_) => false,
    }
}

/// Whether the row mentions a slot of the first list which the second list doesn't have.
fn mentions_other(row: &Row, slots: &[Slot], others: &[Slot]) -> bool {
    for slot in slots {
        if row.mentions(*slot) && !others.contains(slot) {
            return true;
        }
    }
    false
}

/// A list that holds only where both do, and exactly there where the rows hold: that of `join_shorter`, or where there
/// are rows and the second list isn't small, the pairs without those that hold nowhere together with the rows. Those of
/// one conjunction of the first list are looked through before others are made, so that only what is kept needs memory.
/// `met` grows as in `join_shorter`. That takes the complement of a small list in place of all pairs at once, where
/// they would be many: so such lists are left to it.
///
/// # Errors
/// Out of memory.
pub(crate) fn join_inside<T: OfTuples>(
    alloc: Global,
    list: &GenRel<T>,
    next: &GenRel<T>,
    step: &JoinStep<'_, T>,
    met: &mut u64,
) -> Result<GenRel<T>, NoMemory>
    requires { IsJoinStep T.normal T.holds step.now.within.now step.now.slots.now step.now.across.now }
    ensures { IfOk result (λ r. IsMeetInside T.holds T.mentions T.lines
        (conj_holds T.holds step.now.across.now) list.now next.now r) }
{
    if step.across.is_empty() || is_small(next) {
        join_shorter(alloc, list, next, step.slots, met)
    } else {
        pairs_inside(alloc, list, next, step, met)
    }
}

/// The pairs that may hold somewhere together with the rows, those of one conjunction of the first list after those of
/// another.
fn pairs_inside<T: OfTuples>(
    alloc: Global,
    list: &GenRel<T>,
    next: &GenRel<T>,
    step: &JoinStep<'_, T>,
    met: &mut u64,
) -> Result<GenRel<T>, NoMemory>
    requires { IsJoinStep T.normal T.holds step.now.within.now step.now.slots.now step.now.across.now }
    ensures { IfOk result (λ r. IsMeetInside T.holds T.mentions T.lines
        (conj_holds T.holds step.now.across.now) list.now next.now r) }
{
    let index = index_over(alloc, next, step.slots)?;
    let pairs = pairs_by(alloc, list, next, step, &index, met);
    drop(index);
    pairs
}

/// The pairs of both lists that may hold somewhere together with the rows, found by the index over the second list.
fn pairs_by<T: OfTuples>(
    alloc: Global,
    list: &GenRel<T>,
    next: &GenRel<T>,
    step: &JoinStep<'_, T>,
    index: &Option<BoxIndex>,
    met: &mut u64,
) -> Result<GenRel<T>, NoMemory>
    requires step { IsJoinStep T.normal T.holds step.now.within.now step.now.slots.now step.now.across.now }
    requires index { IsIndexOver T.holds T.mentions T.lines step.now.slots.now next.now index.now }
    ensures { IfOk result (λ r. IsMeetInside T.holds T.mentions T.lines
        (conj_holds T.holds step.now.across.now) list.now next.now r) }
{
    let mut out = GenRel::new(alloc);
    for conj in list.list() {
        let one = alone(alloc, conj)?;
        let pairs = join_over(alloc, &one, next, step.slots, index, met)?;
        out.append(kept_inside(alloc, pairs, step.across)?)?;
    }
    Ok(out)
}

/// The conjunctions that may hold somewhere together with the rows.
fn kept_inside<T: OfTuples>(
    alloc: Global,
    list: GenRel<T>,
    across: &[T::Atom],
) -> Result<GenRel<T>, NoMemory>
    requires { AllByRecursion T.normal across.now }
    ensures { IfOk result (λ r. IsInsidePart T.holds T.mentions T.lines (conj_holds T.holds across.now) list r) }
{
    let mut out = GenRel::new(alloc);
    for conj in list.conjs {
        push_inside(alloc, &mut out, conj, across)?;
    }
    Ok(out)
}

/// Sets the conjunction at the end, unless it holds nowhere together with the rows.
fn push_inside<T: OfTuples>(
    alloc: Global,
    out: &mut GenRel<T>,
    conj: Vec<T::Atom>,
    across: &[T::Atom],
) -> Result<(), NoMemory>
    requires conj { AllByRecursion T.normal conj.items }
    requires across { AllByRecursion T.normal across.now }
    ensures { IfOk result (λ _. (conjs : List (List T.Atom))
        → IsInsidePart T.holds T.mentions T.lines (conj_holds T.holds across.now) conjs out.old
        → IsInsidePart T.holds T.mentions T.lines (conj_holds T.holds across.now) (conjs ++ conj.items ∷ []) out.new) }
{
    let both = both_conjs::<T>(alloc, &conj, across)?;
    match T::refute(alloc, &both)? {
        Verdict::Empty => Ok(()),
        _ => out.push(conj),
    }
}
