//! Sums of slots, and the rows of their differences.
ghost use Rattle.std.specs.Prelude.{◌≡◌, ◌<ℤ◌, neg_ℤ, pos, [], ◌∷◌, IfOk};
ghost use Rattle.ded_num.specs.Length.{IsWithin};
ghost use Rattle.ded_model.specs.declared.slot.Sort.TheVariants.{Rat};
ghost use Rattle.ded_model.specs.declared.formula.Operand.TheVariants.{Sum};
ghost use Rattle.ded_model.specs.Sum.{ArePartsWithin};
ghost use Rattle.ded_model.specs.Coefs.{mixed, nonzero};
ghost use Rattle.ded_model.specs.Normal.{IsNormalRow, normal_row};
ghost use Rattle.ded_model.specs.Slotted.{add_parts, slot_sum, difference_row};
ghost use Rattle.ded_resolve.specs.Scope.{AreSummable, IsSummable, AreSmall, IsSmall, sum_over};

use crate::scope::Scope;
use ded_model::formula::{Operand, Parts, Term};
use ded_model::goal::SlotTerm;
use ded_model::memory::NoMemory;
use ded_model::row::{Coefs, Row, RowOp};
use ded_model::slot::Slot;
use ded_row::normal;
use std::alloc::Global;

/// The side of a comparison as a sum over the comparison's denominator. A sum is over it already; a quoted text is no
/// number, and gives an empty sum.
///
/// # Errors
/// Out of memory.
pub fn sum_over(
    alloc: Global,
    scope: &Scope,
    operand: &Operand,
    over: i128,
) -> Result<SlotTerm, NoMemory>
    requires summable { IsSummable scope.now operand.now }
    requires within { IsWithin 112 over }
    requires positive { pos 0 <ℤ over }
    ensures value { IfOk result (λ t. t ≡ sum_over over scope.now operand.now) }
    ensures small { IfOk result (λ t. IsSmall t) }
{
    match operand {
        Operand::Single(name) => Ok(SlotTerm {
            coefs: one_slot(alloc, scope.slot(name), over)?,
            constant: 0,
            over,
        }),
        Operand::Sum(term) => slot_sum(alloc, scope, term),
        Operand::Quoted(_) => Ok(SlotTerm {
            coefs: Coefs::new(alloc),
            constant: 0,
            over,
        }),
    }
}

/// The sum of slots that a sum of names is.
///
/// # Errors
/// Out of memory.
pub fn slot_sum(alloc: Global, scope: &Scope, term: &Term) -> Result<SlotTerm, NoMemory>
    requires { AreSummable scope.now term.now.parts }
    ensures value { IfOk result (λ t. t ≡ slot_sum scope.now (Sum term.now)) }
    ensures small { IfOk result (λ t. IsSmall t) }
{
    Ok(SlotTerm {
        coefs: slot_coefs(alloc, scope, &term.parts)?,
        constant: term.constant,
        over: term.over,
    })
}

/// The coefficients of a sum that is a multiple of the slot.
fn one_slot(alloc: Global, slot: Slot, a: i128) -> Result<Coefs, NoMemory>
    requires rational { slot.sort ≡ Rat }
    requires within { IsWithin 112 a }
    requires positive { pos 0 <ℤ a }
    ensures value { IfOk result (λ cs. cs ≡ (slot, a) ∷ []) }
    ensures small { IfOk result (λ cs. AreSmall cs) }
{
    let mut coefs = Coefs::new(alloc);
    coefs.push(slot, a)?;
    Ok(coefs)
}

/// The coefficients of the names at their slots.
fn slot_coefs(alloc: Global, scope: &Scope, parts: &Parts) -> Result<Coefs, NoMemory>
    requires summable { AreSummable scope.now parts.now }
    requires short { ArePartsWithin 112 parts.now }
    ensures value { IfOk result (λ cs. cs ≡ nonzero (add_parts scope.now parts.now)) }
    ensures small { IfOk result (λ cs. AreSmall cs) }
{
    let parts = parts.list.as_slice();
    let mut coefs = Coefs::new(alloc);
    let mut at = parts.len();
    while at > 0 {
        at -= 1;
        let (name, a) = &parts[at];
        coefs.put(scope.slot(name), *a)?;
    }
    Ok(coefs)
}

/// The normal row of the difference of two sums over one denominator, which are subtracted as they stand.
///
/// # Errors
/// Out of memory.
pub fn difference(left: SlotTerm, right: &SlotTerm, op: RowOp) -> Result<Row, NoMemory>
    requires left { IsSmall left }
    requires right { IsSmall right.now }
    requires shared { left.over ≡ right.now.over }
    ensures value { IfOk result (λ r. r ≡ normal_row (difference_row left right.now op)) }
    ensures normal { IfOk result (λ r. IsNormalRow r) }
{
    let constant = left.constant - right.constant;
    Ok(normal(Row {
        coefs: without(left.coefs, &right.coefs)?,
        constant,
        op,
    }))
}

/// The coefficients of the first list with those of the second taken off.
fn without(left: Coefs, right: &Coefs) -> Result<Coefs, NoMemory>
    requires left { AreSmall left }
    requires right { AreSmall right.now }
    ensures { IfOk result (λ cs. cs ≡ nonzero (mixed (pos 1) left (neg_ℤ (pos 1)) right.now)) }
{
    let mut coefs = left;
    for (slot, a) in right.list() {
        let rest = coefs.at(*slot) - *a;
        coefs.put(*slot, rest)?;
    }
    Ok(coefs)
}
