//! Whether the ends that are found of a slot's values are so.
ghost use Rattle.std.specs.Prelude.{◌≡◌, ◌∷◌, true, IfOk, MatchOption};
ghost use Rattle.ded_model.specs.declared.bound.Bound.TheVariants.{Infinite};
ghost use Rattle.std.specs.List.{AllByRecursion};
ghost use Rattle.ded_model.specs.declared.slot.Sort.TheVariants.{Rat};
ghost use Rattle.ded_model.specs.Cell.{conj_holds, HoldsNowhere};
ghost use Rattle.ded_model.specs.Coefs.{AreCoefs};
ghost use Rattle.ded_model.specs.Interval.{IsExactBound};
ghost use Rattle.ded_model.specs.Row.{row_holds};
ghost use Rattle.ded_box.specs.Intervals.{end_of};
ghost use Rattle.ded_weighing.specs.Columns.{lent};
ghost use Rattle.ded_weighing.specs.Meeting.{meets};
ghost use Rattle.ded_simplex.specs.Ends.{beyond_row, goes};

use crate::extremes::SlotReach;
use crate::fraction::fraction;
use crate::telling::lent;
use ded_box::Side;
use ded_model::bound::{Bound, Frac};
use ded_model::memory::NoMemory;
use ded_model::row::{Coefs, Row, RowOp};
use ded_model::slot::{Slot, Sort};
use ded_weighing::{Witness, are_refuted, leans, meets, number_of};
use std::alloc::Global;

/// Where an end is looked for: a slot, and the side to which its values are followed.
#[derive(Clone, Copy)]
struct Aim {
    slot: Slot,
    side: Side,
}

/// The exact bound of the slot on the side, of rows that hold at a point inside; none where what is found doesn't show
/// it.
///
/// # Errors
/// Out of memory.
pub(crate) fn checked_end(
    alloc: Global,
    rows: &[Row],
    inside: &Witness,
    slot: Slot,
    side: Side,
    reach: &SlotReach,
) -> Result<Option<Bound>, NoMemory>
    requires coefs { AllByRecursion (λ r. AreCoefs r.coefs) rows.now }
    requires inside { meets inside.now.values.items inside.now.denominator rows.now ≡ true }
    ensures { IfOk result (λ o. MatchOption o Unit
        (λ b. IsExactBound (conj_holds row_holds rows.now) slot (end_of side) b)) }
{
    let aim = Aim { slot, side };
    match reach {
        SlotReach::To(point, multipliers) => attained(alloc, rows, point, aim, multipliers),
        SlotReach::Near(corner, multipliers) => {
            approached(alloc, rows, inside, corner, aim, multipliers)
        }
        SlotReach::Endless(direction) => {
            if is_endless(alloc, rows, inside, direction, aim)? {
                Ok(Some(Bound::Infinite))
            } else {
                Ok(None)
            }
        }
        SlotReach::Unknown => Ok(None),
    }
}

/// The slot's value at the point as the bound, where the rows hold there, and nowhere beyond.
///
/// # Errors
/// Out of memory.
fn attained(
    alloc: Global,
    rows: &[Row],
    point: &Witness,
    aim: Aim,
    multipliers: &[i128],
) -> Result<Option<Bound>, NoMemory>
    requires coefs { AllByRecursion (λ r. AreCoefs r.coefs) rows.now }
    ensures { IfOk result (λ o. MatchOption o Unit
        (λ b. IsExactBound (conj_holds row_holds rows.now) aim.slot (end_of aim.side) b)) }
{
    if !meets(&lent(alloc, rows)?, point) {
        return Ok(None);
    }
    let Some(value) = fraction(number_of(&point.values, aim.slot), point.denominator) else {
        return Ok(None);
    };
    if are_none(alloc, rows, aim, value, RowOp::Below, multipliers)? {
        Ok(Some(Bound::Included(value)))
    } else {
        Ok(None)
    }
}

/// The slot's value at the corner as the bound, where the rows hold there but for strictness, and nowhere at it or
/// beyond.
///
/// # Errors
/// Out of memory.
fn approached(
    alloc: Global,
    rows: &[Row],
    inside: &Witness,
    corner: &Witness,
    aim: Aim,
    multipliers: &[i128],
) -> Result<Option<Bound>, NoMemory>
    requires coefs { AllByRecursion (λ r. AreCoefs r.coefs) rows.now }
    requires inside { meets inside.now.values.items inside.now.denominator rows.now ≡ true }
    ensures { IfOk result (λ o. MatchOption o Unit
        (λ b. IsExactBound (conj_holds row_holds rows.now) aim.slot (end_of aim.side) b)) }
{
    if !leans(&lent(alloc, rows)?, corner) {
        return Ok(None);
    }
    let Some(value) = fraction(number_of(&corner.values, aim.slot), corner.denominator) else {
        return Ok(None);
    };
    if are_none(alloc, rows, aim, value, RowOp::AtMost, multipliers)? {
        Ok(Some(Bound::Excluded(value)))
    } else {
        Ok(None)
    }
}

/// Whether the rows hold all along the direction, in which the slot goes to the side.
///
/// # Errors
/// Out of memory.
fn is_endless(
    alloc: Global,
    rows: &[Row],
    inside: &Witness,
    direction: &Witness,
    aim: Aim,
) -> Result<bool, NoMemory>
    requires inside { meets inside.now.values.items inside.now.denominator rows.now ≡ true }
    ensures { IfOk result (λ b. b ≡ true → IsExactBound (conj_holds row_holds rows.now) aim.slot
        (end_of aim.side) Infinite) }
{
    if direction.denominator != 0 || !goes(aim.side, number_of(&direction.values, aim.slot)) {
        return Ok(false);
    }
    Ok(leans(&lent(alloc, rows)?, direction))
}

/// Whether a slot that changes by the number goes to the side.
fn goes(side: Side, number: i128) -> bool
    ensures { result ≡ goes (end_of side) number }
{
    match side {
        Side::Lower => number < 0,
        Side::Upper => number > 0,
    }
}

/// Whether the numbers show that the rows hold nowhere together with the row that says that the slot's value is beyond
/// the fraction, or at it where that row is one by `<=`.
///
/// # Errors
/// Out of memory.
fn are_none(
    alloc: Global,
    rows: &[Row],
    aim: Aim,
    value: Frac,
    op: RowOp,
    multipliers: &[i128],
) -> Result<bool, NoMemory>
    requires coefs { AllByRecursion (λ r. AreCoefs r.coefs) rows.now }
    ensures { IfOk result (λ b. b ≡ true → HoldsNowhere
        (conj_holds row_holds (beyond_row (end_of aim.side) aim.slot value op ∷ rows.now))) }
{
    match aim.slot.sort {
        Sort::Text => Ok(false),
        Sort::Rat => {
            let beyond = beyond_row(alloc, aim, value, op)?;
            let all = with_first(alloc, &beyond, rows)?;
            are_refuted(alloc, multipliers, &all)
        }
    }
}

/// The row that says that the slot's value is beyond the fraction, or at it with `<=`.
///
/// # Errors
/// Out of memory.
fn beyond_row(alloc: Global, aim: Aim, value: Frac, op: RowOp) -> Result<Row, NoMemory>
    requires rational { aim.slot.sort ≡ Rat }
    ensures value { IfOk result (λ r. r ≡ beyond_row (end_of aim.side) aim.slot value op) }
    ensures coefs { IfOk result (λ r. AreCoefs r.coefs) }
{
    let (a, constant) = match aim.side {
        Side::Lower => (value.den, -value.num),
        Side::Upper => (-value.den, value.num),
    };
    let mut coefs = Coefs::new(alloc);
    coefs.push(aim.slot, a)?;
    Ok(Row {
        coefs,
        constant,
        op,
    })
}

/// The rows behind another one.
///
/// # Errors
/// Out of memory.
fn with_first<'a>(alloc: Global, first: &'a Row, rows: &'a [Row]) -> Result<Vec<&'a Row>, NoMemory>
    ensures { IfOk result (λ v. lent v.items ≡ first.now ∷ rows.now) }
{
    let mut all = Vec::new(alloc);
    all.push(first)?;
    for row in rows {
        all.push(row)?;
    }
    Ok(all)
}
