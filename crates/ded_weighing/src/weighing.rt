//! Sums of multiples of rows, made row after row, and whether such a sum is false.
ghost use Rattle.std.specs.Prelude.{◌≡◌, ◌&&◌, ℤ, pos, ◌+ℤ◌, ◌*ℤ◌, true, false, MatchOption, IfOk, IsErrOf, length};
ghost use Rattle.std.specs.List.{AllByRecursion};
ghost use Rattle.ded_model.specs.declared.memory.Refused.TheVariants.{Wide};
ghost use Rattle.ded_model.specs.declared.slot.Slot.{Slot};
ghost use Rattle.ded_model.specs.Cell.{conj_holds, HoldsNowhere};
ghost use Rattle.ded_model.specs.Coefs.{coef_at, AreCoefs};
ghost use Rattle.ded_model.specs.Row.{row_holds};
ghost use Rattle.ded_weighing.specs.Weighing.{fits, signs_fit, is_strict_at, is_weak_at, is_strict, is_weak};
ghost use Rattle.ded_weighing.specs.Weighing.{constant_refutes, refutes, term_is_long, column_is_long, IsLongSum};
ghost use Rattle.ded_weighing.specs.Weighing.{IsLongWeighing};
ghost use Rattle.ded_weighing.specs.Columns.{lent, number_in, sum_from, all_vanish};

use crate::slots::slots_of;
use ded_model::memory::{NoMemory, Refused};
use ded_model::row::{Row, RowOp};
use ded_model::slot::Slot;
use ded_num::{short_product, short_sum};
use std::alloc::{AllocError, Global};

/// Which numbers of rows are summed up.
#[derive(Clone, Copy)]
enum SummedColumn {
    /// Their constants.
    Constants,
    /// Their coefficients of a slot.
    At(Slot),
}

/// Whether there are as many numbers as rows, of the right signs, and the rows, each times its number, come to a row
/// that has no coefficient and holds nowhere.
///
/// # Errors
/// `Wide` only where there are as many numbers as rows, of the right signs, and a product, or a sum on the way, has
/// more than 127 binary digits; otherwise out of memory.
pub fn refutes(alloc: Global, multipliers: &[i128], rows: &[&Row]) -> Result<bool, Refused>
    requires { AllByRecursion (λ r. AreCoefs r.coefs) (lent rows.now) }
    ensures is { IfOk result (λ b. b ≡ refutes multipliers.now (lent rows.now)) }
    ensures wide { IsErrOf result Wide → IsLongWeighing multipliers.now (lent rows.now) }
{
    if multipliers.len() != rows.len() || !signs_fit(multipliers, rows) {
        return Ok(false);
    }
    let slots = slots_of(alloc, rows)?;
    match sum_refutes(multipliers, rows, &slots) {
        Some(refuted) => Ok(refuted),
        None => Err(Refused::Wide),
    }
}

/// Whether the numbers refute the rows, which then hold nowhere together. A number on the way that is too long counts
/// as no.
///
/// # Errors
/// Out of memory.
pub fn are_refuted(alloc: Global, multipliers: &[i128], rows: &[&Row]) -> Result<bool, NoMemory>
    requires { AllByRecursion (λ r. AreCoefs r.coefs) (lent rows.now) }
    ensures { IfOk result (λ b. b ≡ true → HoldsNowhere (conj_holds row_holds (lent rows.now))) }
{
    match refutes(alloc, multipliers, rows) {
        Ok(refuted) => Ok(refuted),
        Err(Refused::Wide) => Ok(false),
        Err(Refused::Memory) => Err(AllocError),
    }
}

/// Whether the coefficients of each of the slots come to 0 and the constants to a number that doesn't stand to 0 as the
/// rows say. None where a number on the way is too long.
fn sum_refutes(multipliers: &[i128], rows: &[&Row], slots: &[Slot]) -> Option<bool>
    requires { length multipliers.now ≡ length rows.now }
    ensures { MatchOption result (IsLongSum multipliers.now (lent rows.now))
        (λ b. b ≡ (all_vanish multipliers.now (lent rows.now) slots.now
        && constant_refutes (is_strict multipliers.now (lent rows.now)) (is_weak multipliers.now (lent rows.now))
        (sum_from (λ r. r.constant) (pos 0) multipliers.now (lent rows.now)))) }
{
    if !all_vanish(multipliers, rows, slots)? {
        return Some(false);
    }
    let constant = column_sum(multipliers, rows, SummedColumn::Constants)?;
    let strict = is_strict(multipliers, rows);
    let weak = is_weak(multipliers, rows);
    Some(constant_refutes(strict, weak, constant))
}

/// Whether the number doesn't stand to 0 as a sum of the rows does.
fn constant_refutes(strict: bool, weak: bool, constant: i128) -> bool
    ensures { result ≡ constant_refutes strict weak constant }
{
    constant > 0 || (constant == 0 && strict) || (constant != 0 && !weak)
}

/// Whether the coefficients of each of the slots come to 0; none where a number on the way is too long.
fn all_vanish(multipliers: &[i128], rows: &[&Row], slots: &[Slot]) -> Option<bool>
    requires { length multipliers.now ≡ length rows.now }
    ensures { MatchOption result ((s : Slot)
        × (column_is_long (λ r. coef_at r.coefs s) (pos 0) multipliers.now (lent rows.now) ≡ true)) (λ b. b
        ≡ all_vanish multipliers.now (lent rows.now) slots.now) }
{
    for slot in slots {
        if column_sum(multipliers, rows, SummedColumn::At(*slot))? != 0 {
            return Some(false);
        }
    }
    Some(true)
}

/// The sum of the numbers of a column, each times that of its row; none where a number on the way is too long.
fn column_sum(multipliers: &[i128], rows: &[&Row], column: SummedColumn) -> Option<i128>
    requires { length multipliers.now ≡ length rows.now }
    ensures { MatchOption result (column_is_long (number_in column) (pos 0) multipliers.now (lent rows.now) ≡ true)
        (λ z. z ≡ sum_from (number_in column) (pos 0) multipliers.now (lent rows.now)) }
{
    let mut sum = 0;
    for i in 0..rows.len() {
        sum = with_term(multipliers[i], number_in(rows[i], column), sum)?;
    }
    Some(sum)
}

/// The number of the row in the column.
fn number_in(row: &Row, column: SummedColumn) -> i128
    ensures { result ≡ number_in column row.now }
{
    match column {
        SummedColumn::Constants => row.constant,
        SummedColumn::At(slot) => row.coefs.at(slot),
    }
}

/// A multiple of the number, and the sum before; none where one of these is too long.
pub(crate) fn with_term(multiplier: i128, number: i128, sum: i128) -> Option<i128>
    ensures { MatchOption result (term_is_long multiplier number sum ≡ true)
        (λ z. (term_is_long multiplier number sum ≡ false) × (z ≡ multiplier *ℤ number +ℤ sum)) }
{
    if sum == i128::MIN {
        return None;
    }
    let product = short_product(multiplier, number)?;
    short_sum(product, sum)
}

/// Whether no row by `<` or `<=` has a negative number.
fn signs_fit(multipliers: &[i128], rows: &[&Row]) -> bool
    requires { length multipliers.now ≡ length rows.now }
    ensures { result ≡ signs_fit multipliers.now (lent rows.now) }
{
    for i in 0..rows.len() {
        if !fits(rows[i], multipliers[i]) {
            return false;
        }
    }
    true
}

/// Whether the row may have the number.
fn fits(row: &Row, multiplier: i128) -> bool
    ensures { result ≡ fits row.now.op multiplier }
{
    match row.op {
        RowOp::Zero => true,
        RowOp::AtMost | RowOp::Below => multiplier >= 0,
    }
}

/// Whether some row by `<` has a positive number.
fn is_strict(multipliers: &[i128], rows: &[&Row]) -> bool
    requires { length multipliers.now ≡ length rows.now }
    ensures { result ≡ is_strict multipliers.now (lent rows.now) }
{
    for i in 0..rows.len() {
        if is_strict_at(rows[i], multipliers[i]) {
            return true;
        }
    }
    false
}

/// Whether the row is one by `<` and the number is positive.
fn is_strict_at(row: &Row, multiplier: i128) -> bool
    ensures { result ≡ is_strict_at row.now.op multiplier }
{
    match row.op {
        RowOp::Zero | RowOp::AtMost => false,
        RowOp::Below => multiplier > 0,
    }
}

/// Whether some row by `<` or `<=` has a positive number.
fn is_weak(multipliers: &[i128], rows: &[&Row]) -> bool
    requires { length multipliers.now ≡ length rows.now }
    ensures { result ≡ is_weak multipliers.now (lent rows.now) }
{
    for i in 0..rows.len() {
        if is_weak_at(rows[i], multipliers[i]) {
            return true;
        }
    }
    false
}

/// Whether the row is one by `<` or `<=` and the number is positive.
fn is_weak_at(row: &Row, multiplier: i128) -> bool
    ensures { result ≡ is_weak_at row.now.op multiplier }
{
    match row.op {
        RowOp::Zero => false,
        RowOp::AtMost | RowOp::Below => multiplier > 0,
    }
}
