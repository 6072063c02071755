//! Rows without those that the others imply, so that one elimination after another doesn't drown in them.
ghost use Rattle.std.specs.Prelude.{◌≡◌, ◌⊎◌, ◌+◌, ◌<◌, IfOk, [], ◌++◌, length, drop};
ghost use Rattle.std.specs.List.{AllByRecursion};
ghost use Rattle.ded_model.specs.Cell.{conj_holds};
ghost use Rattle.ded_model.specs.Point.{Point, IsPoint};
ghost use Rattle.ded_model.specs.Row.{row_holds};
ghost use Rattle.ded_model.specs.Sublists.{IsSublist};
ghost use Rattle.ded_elimination.specs.LinearAtoms.{IsLinearAtom};
ghost use Rattle.ded_linear.specs.Prunings.{IsPruned};

use crate::implication::{Search, imply};
use crate::kept::KeptByDirection;
use ded_model::memory::NoMemory;
use ded_model::row::Row;
use std::alloc::Global;

/// From how many rows on those that the others imply are looked for: fewer take longer to look through than they cost
/// later.
const PRUNED_FROM: usize = 12;

/// The rows that an elimination has made of so many, without those that the others are found to imply, in the same
/// order: they hold at the same points. Few rows stay as they are, and so do rows that have not become more.
///
/// # Errors
/// Out of memory.
pub fn pruned(alloc: Global, rows: Vec<Row>, before: usize) -> Result<Vec<Row>, NoMemory>
    requires normal { AllByRecursion IsLinearAtom rows.items }
    ensures same { IfOk result (λ kept. (p : Point) → IsPoint p
        → conj_holds row_holds kept.items p ≡ conj_holds row_holds rows.items p) }
    ensures part { IfOk result (λ kept. IsSublist kept.items rows.items) }
{
    if rows.len() < PRUNED_FROM || rows.len() <= before {
        return Ok(rows);
    }
    let mut search = Search::new(alloc);
    let fewer = sifted(alloc, &rows, &mut search)?;
    let kept = needed(alloc, &fewer, &mut search)?;
    Ok(kept.rows)
}

/// The rows without those that the rows kept before them are found to imply. Whenever twice as many are kept as were
/// needed of them, those that the others imply are left out, so that few rows have to be asked.
///
/// # Errors
/// Out of memory.
fn sifted(alloc: Global, rows: &[Row], search: &mut Search) -> Result<Vec<Row>, NoMemory>
    requires normal { AllByRecursion IsLinearAtom rows.now }
    ensures { IfOk result (λ kept. IsPruned kept.items rows.now) }
{
    let mut kept = KeptByDirection::new(alloc, rows);
    let mut many = 4 * PRUNED_FROM;
    for i in 0..rows.len() {
        keep_needed(alloc, &mut kept, rows, i, false, search)?;
        many = leave_out(alloc, &mut kept, many, search)?;
    }
    Ok(kept.rows)
}

/// Leaves those out of many rows that the others are found to imply. Gives how many are many the next time.
fn leave_out(
    alloc: Global,
    kept: &mut KeptByDirection,
    many: usize,
    search: &mut Search,
) -> Result<usize, NoMemory>
    requires normal { AllByRecursion IsLinearAtom kept.old.rows.items }
    ensures { IfOk result (λ _. IsPruned kept.new.rows.items kept.old.rows.items) }
{
    if kept.rows.len() < many {
        return Ok(many);
    }
    let fewer = needed(alloc, &kept.rows, search)?;
    let next = fewer.rows.len().saturating_mul(2).max(many);
    *kept = fewer;
    Ok(next)
}

/// The rows without those that the rows kept before them and the rows behind are found to imply.
///
/// # Errors
/// Out of memory.
fn needed(alloc: Global, rows: &[Row], search: &mut Search) -> Result<KeptByDirection, NoMemory>
    requires normal { AllByRecursion IsLinearAtom rows.now }
    ensures { IfOk result (λ kept. IsPruned kept.rows.items rows.now) }
{
    let mut kept = KeptByDirection::new(alloc, rows);
    for i in 0..rows.len() {
        keep_needed(alloc, &mut kept, rows, i, true, search)?;
    }
    Ok(kept)
}

/// Adds the row at the place to those kept before it, unless these, or with `ahead` these and the rows behind, are
/// found to imply it.
fn keep_needed(
    alloc: Global,
    kept: &mut KeptByDirection,
    rows: &[Row],
    place: usize,
    ahead: bool,
    search: &mut Search,
) -> Result<(), NoMemory>
    requires within { place < length rows.now }
    requires normal { AllByRecursion IsLinearAtom rows.now }
    requires so_far { IsPruned (kept.old.rows.items ++ drop place rows.now) rows.now }
    ensures { IfOk result (λ _. IsPruned (kept.new.rows.items ++ drop (place + 1) rows.now) rows.now) }
{
    let others = behind(rows, place, ahead);
    if imply(alloc, kept, others, &rows[place], search)? {
        return Ok(());
    }
    kept.push(rows[place].copy()?)
}

/// The rows behind the place, or none of them.
fn behind(rows: &[Row], place: usize, all: bool) -> &[Row]
    requires within { place < length rows.now }
    ensures { (result.now ≡ []) ⊎ (result.now ≡ drop (place + 1) rows.now) }
{
    if all { &rows[place + 1..] } else { &[] }
}
