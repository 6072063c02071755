//! Elimination of a rational slot from rows, after Fourier and Motzkin.
//!
//! [`eliminate`] gives rows that hold at a point exactly where the given rows hold at some extension of the point at
//! the slot. Where an equality mentions the slot, it takes the slot from every other row. Otherwise every row that
//! bounds the slot from above is combined with every row that bounds it from below. Of rows that differ in their
//! constant or op alone only the stronger is kept, but that of many rows both stay where the hash of another row hides
//! one; true rows are left out, and a false row ends the work.
//!
//! How two rows are combined is a parameter, a [`Mixing`]; [`CheckedCombination`] is that of `ded_row`, for any rows.
//! No row of the answer mentions the slot, and its lines are among those that an elimination makes of the lines of the
//! given rows. `Wide` comes only where two of these lines clash, and never of a mixing that decides.
#![tactic(auto)]

ghost use Rattle.std.specs.Prelude.{◌≡◌, ◌↔◌, true, false, IsTrue, IfOk, IsErrOf};
ghost use Rattle.std.specs.List.{AllByRecursion};
ghost use Rattle.ded_model.specs.declared.slot.Slot.{Slot};
ghost use Rattle.ded_model.specs.declared.memory.Refused.TheVariants.{Wide};
ghost use Rattle.ded_model.specs.Point.{same_slot, Point, IsPoint};
ghost use Rattle.ded_model.specs.Row.{row_holds, row_mentions};
ghost use Rattle.ded_model.specs.Cell.{conj_holds};
ghost use Rattle.ded_model.specs.Lines.{IsSubset, row_lines, elim_at, clash_at};
ghost use Rattle.ded_theory.specs.Conjunctions.{conj_mentions, conj_lines};
ghost use Rattle.ded_theory.specs.Eliminations.{eliminated_atoms, eliminated_holds, SomeExtension};
ghost use Rattle.ded_elimination.specs.LinearAtoms.{IsLinearAtom};
ghost use Rattle.ded_elimination.specs.Adding.{AreLinear, HoldExtended, Adds};

mod equality;
mod keeping;
mod mixing;
mod pairs;

use crate::equality::{by_equality, find_equality};
use crate::keeping::Kept;
use crate::pairs::by_pairs;
use ded_model::memory::Refused;
use ded_model::row::Row;
use ded_model::slot::Slot;
use ded_theory::Eliminated;
pub use keeping::implies;
pub use mixing::{CheckedCombination, Mixing};
use std::alloc::Global;

/// Rows that hold at a point exactly where some extension of the point at the slot satisfies all the given ones;
/// `Never` holds nowhere. They are in normal form and of the kind that the mixing combines, don't mention the slot and
/// mention no new one, and their lines are among those that the elimination makes of the given rows' lines.
///
/// # Errors
/// `Wide` only where two lines of the rows clash at the slot, and never of a mixing that decides; otherwise out of
/// memory.
pub fn eliminate<M: Mixing>(
    alloc: Global,
    rows: &[Row],
    slot: Slot,
) -> Result<Eliminated<Row>, Refused>
    requires normal { AllByRecursion IsLinearAtom rows.now }
    requires rows { AllByRecursion M.rows rows.now }
    ensures holds { IfOk result (λ e. (p : Point) → IsPoint p → IsTrue (eliminated_holds row_holds e p)
        ↔ SomeExtension slot (conj_holds row_holds rows.now) p) }
    ensures normal { IfOk result (λ e. AllByRecursion IsLinearAtom (eliminated_atoms e)) }
    ensures rows { IfOk result (λ e. AllByRecursion M.rows (eliminated_atoms e)) }
    ensures slots { IfOk result (λ e. (s : Slot) → conj_mentions row_mentions (eliminated_atoms e) s ≡ true
        → (same_slot s slot ≡ false) × (conj_mentions row_mentions rows.now s ≡ true)) }
    ensures lines { IfOk result (λ e. IsSubset (conj_lines row_lines (eliminated_atoms e))
        (elim_at slot (conj_lines row_lines rows.now))) }
    ensures wide { IsErrOf result Wide → clash_at slot (conj_lines row_lines rows.now) ≡ true }
    ensures never_wide { M.decides → IsErrOf result Wide → ⊥ }
{
    let mut out = Kept::new(alloc);
    if eliminate_into::<M>(&mut out, rows, slot)? {
        Ok(Eliminated::Conj(out.rows))
    } else {
        Ok(Eliminated::Never)
    }
}

/// Adds what is left of the rows without the slot. Returns whether something may satisfy the rows.
fn eliminate_into<M: Mixing>(out: &mut Kept, rows: &[Row], slot: Slot) -> Result<bool, Refused>
    requires normal { AreLinear rows.now }
    requires rows { AllByRecursion M.rows rows.now }
    ensures adds { IfOk result (λ more. Adds M.rows slot rows.now
        (HoldExtended slot rows.now) out.old.rows.items more out.new.rows.items) }
    ensures wide { IsErrOf result Wide → clash_at slot (conj_lines row_lines rows.now) ≡ true }
    ensures never_wide { M.decides → IsErrOf result Wide → ⊥ }
{
    match find_equality(rows, slot) {
        Some(place) => by_equality::<M>(out, rows, place, slot),
        None => by_pairs::<M>(out, rows, slot),
    }
}
