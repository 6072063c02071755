//! Between which values a slot stands where rows hold, as far as the search finds what shows it.
ghost use Rattle.std.specs.Prelude.{IfOk};
ghost use Rattle.std.specs.List.{AllByRecursion};
ghost use Rattle.ded_model.specs.Coefs.{AreCoefs};
ghost use Rattle.ded_weighing.specs.Columns.{lent};
ghost use Rattle.ded_weighing.specs.Meeting.{meets};
ghost use Rattle.ded_simplex.specs.Sure.{IsSureSpan};

use crate::ends::checked_end;
use crate::extremes::{SlotRange, SlotReach, find_range};
use crate::telling::lent;
use ded_box::Side;
use ded_model::bound::Bound;
use ded_model::memory::NoMemory;
use ded_model::row::Row;
use ded_model::slot::Slot;
use ded_theory::Span;
use ded_weighing::{Witness, are_refuted, meets};
use std::alloc::Global;

/// Between which values the slot stands where all the rows hold: `Nothing` and `Exact` are so, as what is found for
/// them is checked. `Around` without bounds where nothing is found, or it doesn't pass its check.
///
/// # Errors
/// Out of memory.
pub fn extent(alloc: Global, rows: &[Row], slot: Slot) -> Result<Span, NoMemory>
    requires { AllByRecursion (λ r. AreCoefs r.coefs) rows.now }
    ensures { IfOk result (λ s. IsSureSpan rows.now slot s) }
{
    let lent = lent(alloc, rows)?;
    match find_range(alloc, &lent, slot)? {
        SlotRange::Nowhere(multipliers) => checked_nothing(alloc, &lent, slot, &multipliers),
        SlotRange::Somewhere(inside, below, above) => {
            checked_ends(alloc, rows, slot, &inside, &below, &above)
        }
        SlotRange::Unknown => Ok(Span::Around(Bound::Infinite, Bound::Infinite)),
    }
}

/// `Nothing` where the numbers refute the rows.
///
/// # Errors
/// Out of memory.
fn checked_nothing(
    alloc: Global,
    rows: &[&Row],
    slot: Slot,
    multipliers: &[i128],
) -> Result<Span, NoMemory>
    requires { AllByRecursion (λ r. AreCoefs r.coefs) (lent rows.now) }
    ensures { IfOk result (λ s. IsSureSpan (lent rows.now) slot s) }
{
    if are_refuted(alloc, multipliers, rows)? {
        Ok(Span::Nothing)
    } else {
        Ok(Span::Around(Bound::Infinite, Bound::Infinite))
    }
}

/// The two ends, where the rows hold at the point inside and both pass their check.
///
/// # Errors
/// Out of memory.
fn checked_ends(
    alloc: Global,
    rows: &[Row],
    slot: Slot,
    inside: &Witness,
    below: &SlotReach,
    above: &SlotReach,
) -> Result<Span, NoMemory>
    requires { AllByRecursion (λ r. AreCoefs r.coefs) rows.now }
    ensures { IfOk result (λ s. IsSureSpan rows.now slot s) }
{
    if !meets(&lent(alloc, rows)?, inside) {
        return Ok(Span::Around(Bound::Infinite, Bound::Infinite));
    }
    let lower = checked_end(alloc, rows, inside, slot, Side::Lower, below)?;
    let upper = checked_end(alloc, rows, inside, slot, Side::Upper, above)?;
    match (lower, upper) {
        (Some(lower), Some(upper)) => Ok(Span::Exact(lower, upper)),
        _ => Ok(Span::Around(Bound::Infinite, Bound::Infinite)),
    }
}
