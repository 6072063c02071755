//! Elimination of a slot that no equality mentions.
ghost use Rattle.std.specs.Prelude.{◌≡◌, ◌<ℤ◌, pos, true, List, length, IfOk, IsErrOf};
ghost use Rattle.std.specs.List.{AllByRecursion};
ghost use Rattle.ded_model.specs.declared.memory.Refused.TheVariants.{Wide};
ghost use Rattle.ded_model.specs.Constraint.{LinearConstraint};
ghost use Rattle.ded_model.specs.Coefs.{coef_at};
ghost use Rattle.ded_model.specs.Lines.{In, row_lines, clash_at};
ghost use Rattle.ded_theory.specs.Conjunctions.{conj_lines};
ghost use Rattle.ded_elimination.specs.LinearAtoms.{IsLinearAtom};
ghost use Rattle.ded_elimination.specs.Adding.{AreLinear, HoldExtended, Adds, OfFirst};
ghost use Rattle.ded_elimination.specs.Equalities.{NoEquality};
ghost use Rattle.ded_elimination.specs.Pairs.{LevelHolds, PairHolds, UpperHolds};

use crate::keeping::{Kept, keep};
use crate::mixing::Mixing;
use ded_model::memory::{NoMemory, Refused};
use ded_model::row::Row;
use ded_model::slot::Slot;

/// Adds the rows without the slot, and the combinations of each row that bounds the slot from above with each one that
/// bounds it from below. Returns whether something may satisfy the rows.
///
/// # Errors
/// `Wide` only where two lines of the rows clash at the slot, and never of a mixing that decides; otherwise out of
/// memory.
pub fn by_pairs<M: Mixing>(out: &mut Kept, rows: &[Row], slot: Slot) -> Result<bool, Refused>
    requires normal { AreLinear rows.now }
    requires rows { AllByRecursion M.rows rows.now }
    requires none { NoEquality slot rows.now (length rows.now) }
    ensures adds { IfOk result (λ more. Adds M.rows slot rows.now
        (HoldExtended slot rows.now) out.old.rows.items more out.new.rows.items) }
    ensures wide { IsErrOf result Wide → clash_at slot (conj_lines row_lines rows.now) ≡ true }
    ensures never_wide { M.decides → IsErrOf result Wide → ⊥ }
{
    if keep_level::<M>(out, rows, slot)? {
        mix_uppers::<M>(out, rows, slot)
    } else {
        Ok(false)
    }
}

/// Adds the rows without the slot. Returns whether something may satisfy the rows.
fn keep_level<M: Mixing>(out: &mut Kept, rows: &[Row], slot: Slot) -> Result<bool, NoMemory>
    requires normal { AreLinear rows.now }
    requires rows { AllByRecursion M.rows rows.now }
    ensures { IfOk result (λ more. Adds M.rows slot rows.now
        (OfFirst (LevelHolds slot) rows.now (length rows.now)) out.old.rows.items more out.new.rows.items) }
{
    for row in rows {
        if !add_level::<M>(out, row, slot)? {
            return Ok(false);
        }
    }
    Ok(true)
}

/// Adds the row if it is without the slot. Returns whether something may satisfy the rows that it is one of.
fn add_level<M: Mixing>(out: &mut Kept, row: &Row, slot: Slot) -> Result<bool, NoMemory>
    requires normal { IsLinearAtom row.now }
    requires rows { M.rows row.now }
    ensures { IfOk result (λ more. (rows : List LinearConstraint) → AreLinear rows → In row.now rows
        → Adds M.rows slot rows (LevelHolds slot row.now) out.old.rows.items more out.new.rows.items) }
{
    if row.coefs.at(slot) == 0 {
        keep(out, row.copy()?)
    } else {
        Ok(true)
    }
}

/// Adds the combinations of each row that bounds the slot from above with each one that bounds it from below. Returns
/// whether something may satisfy the rows.
fn mix_uppers<M: Mixing>(out: &mut Kept, rows: &[Row], slot: Slot) -> Result<bool, Refused>
    requires normal { AreLinear rows.now }
    requires rows { AllByRecursion M.rows rows.now }
    ensures adds { IfOk result (λ more. Adds M.rows slot rows.now
        (OfFirst (UpperHolds slot rows.now) rows.now (length rows.now)) out.old.rows.items more out.new.rows.items) }
    ensures wide { IsErrOf result Wide → clash_at slot (conj_lines row_lines rows.now) ≡ true }
    ensures never_wide { M.decides → IsErrOf result Wide → ⊥ }
{
    for upper in rows {
        if !add_upper::<M>(out, upper, rows, slot)? {
            return Ok(false);
        }
    }
    Ok(true)
}

/// Adds the combinations of the row with each one that bounds the slot from below, if it bounds the slot from above.
/// Returns whether something may satisfy the rows.
fn add_upper<M: Mixing>(
    out: &mut Kept,
    upper: &Row,
    rows: &[Row],
    slot: Slot,
) -> Result<bool, Refused>
    requires normal { AreLinear rows.now }
    requires rows { AllByRecursion M.rows rows.now }
    requires inside { In upper.now rows.now }
    ensures adds { IfOk result (λ more. Adds M.rows slot rows.now
        (UpperHolds slot rows.now upper.now) out.old.rows.items more out.new.rows.items) }
    ensures wide { IsErrOf result Wide → clash_at slot (conj_lines row_lines rows.now) ≡ true }
    ensures never_wide { M.decides → IsErrOf result Wide → ⊥ }
{
    if upper.coefs.at(slot) > 0 {
        mix_lowers::<M>(out, upper, rows, slot)
    } else {
        Ok(true)
    }
}

/// Adds the combinations of an upper row with each row that bounds the slot from below. Returns whether something may
/// satisfy the rows.
fn mix_lowers<M: Mixing>(
    out: &mut Kept,
    upper: &Row,
    rows: &[Row],
    slot: Slot,
) -> Result<bool, Refused>
    requires normal { AreLinear rows.now }
    requires rows { AllByRecursion M.rows rows.now }
    requires inside { In upper.now rows.now }
    requires above { pos 0 <ℤ coef_at upper.now.coefs slot }
    ensures adds { IfOk result (λ more. Adds M.rows slot rows.now
        (OfFirst (PairHolds slot upper.now) rows.now (length rows.now)) out.old.rows.items more out.new.rows.items) }
    ensures wide { IsErrOf result Wide → clash_at slot (conj_lines row_lines rows.now) ≡ true }
    ensures never_wide { M.decides → IsErrOf result Wide → ⊥ }
{
    for lower in rows {
        if !add_pair::<M>(out, upper, lower, slot)? {
            return Ok(false);
        }
    }
    Ok(true)
}

/// Adds the combination of an upper row with a row if that bounds the slot from below. Returns whether something may
/// satisfy the rows that both are of.
fn add_pair<M: Mixing>(
    out: &mut Kept,
    upper: &Row,
    lower: &Row,
    slot: Slot,
) -> Result<bool, Refused>
    requires normal { IsLinearAtom upper.now × IsLinearAtom lower.now }
    requires rows { M.rows upper.now × M.rows lower.now }
    requires above { pos 0 <ℤ coef_at upper.now.coefs slot }
    ensures adds { IfOk result (λ more. (rows : List LinearConstraint) → AreLinear rows
        → In upper.now rows → In lower.now rows
        → Adds M.rows slot rows (PairHolds slot upper.now lower.now) out.old.rows.items more out.new.rows.items) }
    ensures wide { IsErrOf result Wide → (rows : List LinearConstraint) → AreLinear rows
        → In upper.now rows → In lower.now rows
        → clash_at slot (conj_lines row_lines rows) ≡ true }
    ensures never_wide { M.decides → IsErrOf result Wide → ⊥ }
{
    if lower.coefs.at(slot) < 0 {
        let row = M::mix(upper, lower, slot)?;
        Ok(keep(out, row)?)
    } else {
        Ok(true)
    }
}
