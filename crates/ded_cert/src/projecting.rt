//! Slots eliminated one after another.
ghost use Rattle.std.specs.Prelude.{◌≡◌, true, length, IfOk, IsErrOf};
ghost use Rattle.std.specs.List.{AllByRecursion};
ghost use Rattle.ded_model.specs.declared.memory.Refused.TheVariants.{Wide};
ghost use Rattle.ded_model.specs.declared.slot.Sort.TheVariants.{Rat};
ghost use Rattle.ded_model.specs.Cell.{conj_holds, HoldsSomewhere};
ghost use Rattle.ded_model.specs.Row.{row_holds};
ghost use Rattle.ded_model.specs.Lines.{row_lines, clash_at};
ghost use Rattle.ded_theory.specs.Conjunctions.{conj_lines};
ghost use Rattle.ded_elimination.specs.LinearAtoms.{IsLinearAtom};
ghost use Rattle.ded_cert.specs.Tracing.{is_weak_row};
ghost use Rattle.ded_cert.specs.Projecting.{IsStep, IsProjected, GetLong};

use crate::weak::Weak;
use ded_elimination::eliminate;
use ded_model::memory::Refused;
use ded_model::row::Row;
use ded_model::slot::Slot;
use ded_theory::Eliminated;
use std::alloc::Global;

/// What is left of rows that hold somewhere after the slots are eliminated.
///
/// # Errors
/// `Wide` only where a number on the way gets too long, otherwise out of memory.
pub(crate) fn without_slots(
    alloc: Global,
    mut rows: Vec<Row>,
    slots: &[Slot],
) -> Result<Vec<Row>, Refused>
    requires normal { AllByRecursion IsLinearAtom rows.items }
    requires weak { AllByRecursion (λ r. is_weak_row r ≡ true) rows.items }
    requires somewhere { HoldsSomewhere (conj_holds row_holds rows.items) }
    requires rational { AllByRecursion (λ s. s.sort ≡ Rat) slots.now }
    ensures projected { IfOk result (λ left. IsProjected rows.items slots.now left.items) }
    ensures normal { IfOk result (λ left. AllByRecursion IsLinearAtom left.items) }
    ensures weak { IfOk result (λ left. AllByRecursion (λ r. is_weak_row r ≡ true) left.items) }
    ensures wide { IsErrOf result Wide → GetLong rows.items (length slots.now) }
{
    for slot in slots {
        rows = without_slot(alloc, &rows, *slot)?;
    }
    Ok(rows)
}

/// What is left of rows that hold somewhere after the slot is eliminated.
fn without_slot(alloc: Global, rows: &[Row], slot: Slot) -> Result<Vec<Row>, Refused>
    requires normal { AllByRecursion IsLinearAtom rows.now }
    requires weak { AllByRecursion (λ r. is_weak_row r ≡ true) rows.now }
    requires somewhere { HoldsSomewhere (conj_holds row_holds rows.now) }
    requires rational { slot.sort ≡ Rat }
    ensures step { IfOk result (λ left. IsStep rows.now slot left.items) }
    ensures normal { IfOk result (λ left. AllByRecursion IsLinearAtom left.items) }
    ensures weak { IfOk result (λ left. AllByRecursion (λ r. is_weak_row r ≡ true) left.items) }
    ensures wide { IsErrOf result Wide → clash_at slot (conj_lines row_lines rows.now) ≡ true }
{
    match eliminate::<Weak>(alloc, rows, slot)? {
        Eliminated::Conj(left) => Ok(left),
        Eliminated::Never => Err(Refused::Wide), // no rows that hold somewhere give this
    }
}
