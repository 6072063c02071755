//! The exact bounds of a slot over all points that satisfy some rows, with any way of combining two of them.
ghost use Rattle.std.specs.Prelude.{IfOk};
ghost use Rattle.std.specs.List.{AllByRecursion};
ghost use Rattle.ded_model.specs.Row.{row_holds, row_mentions};
ghost use Rattle.ded_model.specs.Lines.{row_lines};
ghost use Rattle.ded_theory.specs.Verdicts.{IsSpan, IsVerdict, IsAround};
ghost use Rattle.ded_elimination.specs.LinearAtoms.{IsLinearAtom};
ghost use Rattle.ded_linear.specs.SlotLists.{AreOthers};
ghost use Rattle.ded_linear.specs.Told.{verdict_of};

use crate::interval::{are_single, interval};
use crate::order::{mention, other_slots, take_cheapest};
use ded_elimination::{Mixing, eliminate};
use ded_model::bound::Bound;
use ded_model::memory::{NoMemory, Refused};
use ded_model::row::Row;
use ded_model::slot::Slot;
use ded_simplex::extent;
use ded_theory::{Eliminated, Span};
use std::alloc::{AllocError, Global};

/// From how many rows on the ends of the slot are looked for before anything is eliminated, where a row mentions three
/// slots or more: of fewer rows they are found sooner by eliminations.
const ENDS_SEARCHED_FROM: usize = 8;

/// The same where no row mentions more than two slots: of such rows an elimination makes none that mentions more.
const ENDS_OF_PAIRS_SEARCHED_FROM: usize = 16;

/// The exact bounds of the slot, `Nothing` where no point satisfies the rows, and no bounds at all where a number on
/// the way got too long, which a mixing that decides never lets happen. Of many rows what shows the bounds is looked
/// for first.
///
/// # Errors
/// Out of memory.
pub fn bounds<M: Mixing>(alloc: Global, rows: &[Row], slot: Slot) -> Result<Span, NoMemory>
    requires normal { AllByRecursion IsLinearAtom rows.now }
    requires rows { AllByRecursion M.rows rows.now }
    ensures span { IfOk result (λ s. IsSpan row_holds row_mentions row_lines rows.now slot s) }
    ensures verdict { IfOk result (λ s. IsVerdict row_holds row_mentions row_lines rows.now (verdict_of s)) }
    ensures exact { M.decides → IfOk result (λ s. IsAround s → ⊥) }
{
    if are_single(rows) {
        return Ok(interval(rows, slot));
    }
    if !are_many(rows) {
        return eliminated::<M>(alloc, rows, slot);
    }
    match extent(alloc, rows, slot)? {
        Span::Around(_, _) => eliminated::<M>(alloc, rows, slot),
        Span::Nothing => Ok(Span::Nothing),
        Span::Exact(lower, upper) => Ok(Span::Exact(lower, upper)),
    }
}

/// Whether the rows are so many that the ends of a slot are found sooner without eliminations. It does not allocate.
fn are_many(rows: &[Row]) -> bool {
    rows.len() >= ENDS_OF_PAIRS_SEARCHED_FROM
        || (rows.len() >= ENDS_SEARCHED_FROM && rows.iter().any(|row| row.coefs.list().len() > 2))
}

/// The bounds as [`bounds`] gives them, by eliminations alone: of other slots, that with the fewest pairs of rows
/// first, until each row mentions at most one.
///
/// # Errors
/// Out of memory.
pub(crate) fn eliminated<M: Mixing>(
    alloc: Global,
    rows: &[Row],
    slot: Slot,
) -> Result<Span, NoMemory>
    requires normal { AllByRecursion IsLinearAtom rows.now }
    requires rows { AllByRecursion M.rows rows.now }
    ensures span { IfOk result (λ s. IsSpan row_holds row_mentions row_lines rows.now slot s) }
    ensures verdict { IfOk result (λ s. IsVerdict row_holds row_mentions row_lines rows.now (verdict_of s)) }
    ensures exact { M.decides → IfOk result (λ s. IsAround s → ⊥) }
{
    let others = other_slots(alloc, rows, slot)?;
    bounds_past::<M>(alloc, rows, others, slot)
}

/// The exact bounds of the slot as [`eliminated`] gives them, with the other slots that the rows mention at hand.
fn bounds_past<M: Mixing>(
    alloc: Global,
    rows: &[Row],
    mut others: Vec<Slot>,
    slot: Slot,
) -> Result<Span, NoMemory>
    requires normal { AllByRecursion IsLinearAtom rows.now }
    requires rows { AllByRecursion M.rows rows.now }
    requires others { AreOthers slot others.items rows.now }
    ensures span { IfOk result (λ s. IsSpan row_holds row_mentions row_lines rows.now slot s) }
    ensures verdict { IfOk result (λ s. IsVerdict row_holds row_mentions row_lines rows.now (verdict_of s)) }
    ensures exact { M.decides → IfOk result (λ s. IsAround s → ⊥) }
{
    if are_single(rows) {
        return Ok(interval(rows, slot));
    }
    let other = take_cheapest(rows, &mut others);
    if !mention(rows, other) {
        return bounds_past::<M>(alloc, rows, others, slot);
    }
    match eliminate::<M>(alloc, rows, other) {
        Ok(Eliminated::Never) => Ok(Span::Nothing),
        Ok(Eliminated::Conj(left)) => bounds_past::<M>(alloc, &left, others, slot),
        Err(Refused::Wide) => Ok(Span::Around(Bound::Infinite, Bound::Infinite)),
        Err(Refused::Memory) => Err(AllocError),
    }
}
