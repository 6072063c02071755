//! The goals of comparisons, and the arguments of atoms.
ghost use Rattle.std.specs.Prelude.{◌≡◌, false, IfOk, map};
ghost use Rattle.ded_model.specs.Normal.{IsNormalRow, normal_row};
ghost use Rattle.ded_model.specs.Form.{compare};
ghost use Rattle.ded_model.specs.Goal.{goal_form};
ghost use Rattle.ded_model.specs.Known.{is_unbound_atom};
ghost use Rattle.ded_model.specs.Slotted.{compare_goal, comparison_row, sums_goal, is_text_operand, place_of};
ghost use Rattle.ded_model.specs.Plain.{IsPlainAtom};
ghost use Rattle.ded_resolve.specs.TextSums.{has_text_sum};
ghost use Rattle.ded_resolve.specs.Scope.{sorts_of, AreApart, IsSmall, IsPlaceable, ArePlaceable};
ghost use Rattle.ded_resolve.specs.Tuples.{is_missorted_comparison, IsNormalComparison};

use crate::scope::Scope;
use crate::sums::{difference, slot_sum, sum_over};
use crate::texts::{text_side, texts};
use ded_model::formula::{CompareOp, Operand, Operands, denominator};
use ded_model::goal::{Goal, Place, Places, SlotTerm};
use ded_model::memory::NoMemory;
use ded_model::row::{Row, RowOp};
use ded_model::slot::Sort;
use std::alloc::Global;

/// The goal of a comparison: of texts where a side is one, of sums where none is.
///
/// # Errors
/// Out of memory.
pub fn comparison(
    alloc: Global,
    scope: &Scope,
    left: &Operand,
    op: CompareOp,
    right: &Operand,
) -> Result<Goal, NoMemory>
    requires apart { AreApart scope.now }
    requires plain { IsPlainAtom (compare left.now op right.now) }
    requires bound { is_unbound_atom (sorts_of scope.now) (compare left.now op right.now) ≡ false }
    requires sorted { has_text_sum (sorts_of scope.now) (compare left.now op right.now) ≡ false }
    ensures goal { IfOk result (λ g. goal_form g ≡ compare_goal scope.now left.now op right.now) }
    ensures normal { is_missorted_comparison (sorts_of scope.now) (compare left.now op right.now) ≡ false
        → IfOk result (λ g. IsNormalComparison (goal_form g)) }
{
    if is_text(scope, left) || is_text(scope, right) {
        return texts(alloc, text_side(scope, left), op, text_side(scope, right));
    }
    let over = denominator(left, right);
    let left = sum_over(alloc, scope, left, over)?;
    let right = sum_over(alloc, scope, right, over)?;
    sums(alloc, left, op, right)
}

/// Whether the operand is a text variable or a quoted text.
fn is_text(scope: &Scope, operand: &Operand) -> bool
    ensures { result ≡ is_text_operand scope.now operand.now }
{
    match operand {
        Operand::Single(name) => scope.slot(name).sort == Sort::Text,
        Operand::Sum(_) => false,
        Operand::Quoted(_) => true,
    }
}

/// The goal of a comparison of sums over one denominator.
fn sums(alloc: Global, left: SlotTerm, op: CompareOp, right: SlotTerm) -> Result<Goal, NoMemory>
    requires left { IsSmall left }
    requires right { IsSmall right }
    requires shared { left.over ≡ right.over }
    ensures goal { IfOk result (λ g. goal_form g ≡ sums_goal left op right) }
    ensures normal { IfOk result (λ g. IsNormalComparison (goal_form g)) }
{
    let row = row(left, op, right)?;
    match op {
        CompareOp::NotEqual => Ok(Goal::Not(Box::new(alloc, Goal::Linear(row))?)),
        _ => Ok(Goal::Linear(row)),
    }
}

/// The normal row of a comparison of sums over one denominator, that of `=` for `!=`.
fn row(left: SlotTerm, op: CompareOp, right: SlotTerm) -> Result<Row, NoMemory>
    requires left { IsSmall left }
    requires right { IsSmall right }
    requires shared { left.over ≡ right.over }
    ensures value { IfOk result (λ r. r ≡ normal_row (comparison_row left op right)) }
    ensures normal { IfOk result (λ r. IsNormalRow r) }
{
    match op {
        CompareOp::Less => difference(left, &right, RowOp::Below),
        CompareOp::LessEq => difference(left, &right, RowOp::AtMost),
        CompareOp::Equal | CompareOp::NotEqual => difference(left, &right, RowOp::Zero),
        CompareOp::GreaterEq => difference(right, &left, RowOp::AtMost),
        CompareOp::Greater => difference(right, &left, RowOp::Below),
    }
}

/// The arguments of an atom by slots.
///
/// # Errors
/// Out of memory.
pub fn places(alloc: Global, scope: &Scope, operands: &Operands) -> Result<Places, NoMemory>
    requires { ArePlaceable scope.now operands.now }
    ensures { IfOk result (λ ps. ps ≡ map (place_of scope.now) operands.now) }
{
    let mut list = Vec::with_capacity(alloc, operands.list.len())?;
    for operand in &operands.list {
        list.push(place(alloc, scope, operand)?)?;
    }
    Ok(Places { list })
}

/// One argument of an atom, by its slot.
fn place(alloc: Global, scope: &Scope, operand: &Operand) -> Result<Place, NoMemory>
    requires { IsPlaceable scope.now operand.now }
    ensures { IfOk result (λ p. p ≡ place_of scope.now operand.now) }
{
    match operand {
        Operand::Single(name) => Ok(Place::At(scope.slot(name))),
        Operand::Sum(term) => Ok(Place::Value(slot_sum(alloc, scope, term)?)),
        Operand::Quoted(text) => Ok(Place::Quoted(text.copy()?)),
    }
}
