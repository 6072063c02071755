//! Elimination of a slot that an equality mentions.
ghost use Rattle.std.specs.Prelude.{◌≡◌, ◌≢◌, ℕ, pos, true, false, List, length, MatchOption, IfOk, IsErrOf};
ghost use Rattle.std.specs.List.{AllByRecursion};
ghost use Rattle.ded_model.specs.declared.memory.Refused.TheVariants.{Wide};
ghost use Rattle.ded_model.specs.declared.row.RowOp.TheVariants.{Zero};
ghost use Rattle.ded_model.specs.Constraint.{LinearConstraint};
ghost use Rattle.ded_model.specs.Coefs.{coef_at};
ghost use Rattle.ded_model.specs.Normal.{IsNormalRow};
ghost use Rattle.ded_model.specs.Lines.{Line, In, row_lines, clash_at};
ghost use Rattle.ded_theory.specs.Conjunctions.{conj_lines};
ghost use Rattle.ded_elimination.specs.LinearAtoms.{IsLinearAtom};
ghost use Rattle.ded_elimination.specs.Adding.{AreLinear, HoldExtended, Adds};
ghost use Rattle.ded_elimination.specs.Equalities.{equal_size, NoEquality, IsEqualityAt, IsLeastEquality, settled_row};
ghost use Rattle.ded_elimination.specs.Equalities.{settled_clash, SettledHolds};

use crate::keeping::{Kept, keep};
use crate::mixing::Mixing;
use ded_model::memory::Refused;
use ded_model::row::{Row, RowOp};
use ded_model::slot::Slot;

/// The place of the equality that mentions the slot with the coefficient of the least magnitude; none where no equality
/// does.
pub fn find_equality(rows: &[Row], slot: Slot) -> Option<usize>
    ensures { MatchOption result (NoEquality slot rows.now (length rows.now)) (IsLeastEquality slot rows.now) }
{
    let mut place = 0;
    let mut least = 0;
    for (i, row) in rows.iter().enumerate() {
        let size = equal_size(row, slot);
        if size != 0 && (least == 0 || size < least) {
            place = i;
            least = size;
        }
    }
    if least == 0 { None } else { Some(place) }
}

/// The magnitude of the slot's coefficient in an equality; 0 in a row that is none.
fn equal_size(row: &Row, slot: Slot) -> u128
    ensures { result ≡ equal_size slot row.now }
{
    match row.op {
        RowOp::Zero => row.coefs.at(slot).unsigned_abs(),
        RowOp::AtMost | RowOp::Below => 0,
    }
}

/// Adds the rows without the slot, and the combinations of the equality at a place with the other rows. Returns whether
/// something may satisfy the rows.
///
/// # Errors
/// `Wide` only where two lines of the rows clash at the slot, and never of a mixing that decides; otherwise out of
/// memory.
pub fn by_equality<M: Mixing>(
    out: &mut Kept,
    rows: &[Row],
    place: usize,
    slot: Slot,
) -> Result<bool, Refused>
    requires normal { AreLinear rows.now }
    requires rows { AllByRecursion M.rows rows.now }
    requires equality { (n : ℕ) × IsEqualityAt slot rows.now n place }
    ensures adds { IfOk result (λ more. Adds M.rows slot rows.now
        (HoldExtended slot rows.now) out.old.rows.items more out.new.rows.items) }
    ensures wide { IsErrOf result Wide → clash_at slot (conj_lines row_lines rows.now) ≡ true }
    ensures never_wide { M.decides → IsErrOf result Wide → ⊥ }
{
    let equal = &rows[place];
    for (i, row) in rows.iter().enumerate() {
        if i != place && !add_settled::<M>(out, equal, row, slot)? {
            return Ok(false);
        }
    }
    Ok(true)
}

/// Adds what is left of a row after the equality has taken the slot from it. Returns whether something may satisfy the
/// rows.
fn add_settled<M: Mixing>(
    out: &mut Kept,
    equal: &Row,
    row: &Row,
    slot: Slot,
) -> Result<bool, Refused>
    requires equality { equal.now.op ≡ Zero }
    requires mentions { coef_at equal.now.coefs slot ≢ pos 0 }
    requires normal { IsLinearAtom equal.now × IsLinearAtom row.now }
    requires rows { M.rows equal.now × M.rows row.now }
    ensures adds { IfOk result (λ more. (rows : List LinearConstraint) → AreLinear rows
        → In equal.now rows → In row.now rows
        → Adds M.rows slot rows (SettledHolds slot equal.now row.now) out.old.rows.items more out.new.rows.items) }
    ensures wide { IsErrOf result Wide → (rows : List LinearConstraint) → AreLinear rows
        → In equal.now rows → In row.now rows
        → clash_at slot (conj_lines row_lines rows) ≡ true }
    ensures never_wide { M.decides → IsErrOf result Wide → ⊥ }
{
    let row = settled::<M>(equal, row, slot)?;
    Ok(keep(out, row)?)
}

/// What is left of a row after the equality has taken the slot from it: the row itself where it is without the slot.
fn settled<M: Mixing>(equal: &Row, row: &Row, slot: Slot) -> Result<Row, Refused>
    requires equality { equal.now.op ≡ Zero }
    requires mentions { coef_at equal.now.coefs slot ≢ pos 0 }
    requires normal { IsLinearAtom equal.now × IsLinearAtom row.now }
    requires rows { M.rows equal.now × M.rows row.now }
    ensures value { IfOk result (λ r. r ≡ settled_row slot equal.now row.now) }
    ensures normal { IfOk result (λ r. IsNormalRow r) }
    ensures rows { IfOk result M.rows }
    ensures short { IfOk result (λ r. (l : Line) → In l (row_lines r) → settled_clash slot equal.now row.now ≡ false) }
    ensures wide { IsErrOf result Wide → settled_clash slot equal.now row.now ≡ true }
    ensures never_wide { M.decides → IsErrOf result Wide → ⊥ }
{
    let a = row.coefs.at(slot);
    if a == 0 {
        return Ok(row.copy()?);
    }
    if a > 0 {
        M::mix(row, equal, slot)
    } else {
        M::mix(equal, row, slot)
    }
}
