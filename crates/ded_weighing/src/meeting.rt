//! Whether rows hold at a point that is given as data.
ghost use Rattle.std.specs.Prelude.{◌≡◌, pos, ◌+ℤ◌, ◌*ℤ◌, ◌<ℤ◌, ◌≤ℤ◌, true, false, MatchOption};
ghost use Rattle.std.specs.List.{list_all};
ghost use Rattle.ded_model.specs.Row.{row_at};
ghost use Rattle.ded_weighing.specs.Weighing.{term_is_long};
ghost use Rattle.ded_weighing.specs.Columns.{lent};
ghost use Rattle.ded_weighing.specs.Meeting.{point_of, number_from, sum_with, coefs_are_long, row_is_long, meets_row};
ghost use Rattle.ded_weighing.specs.Meeting.{meets, weakly, leans_row, leans};

use crate::weighing::with_term;
use crate::witness::Witness;
use ded_model::row::{Row, RowOp};
use ded_model::slot::Slot;

/// Whether the denominator is positive and each row holds at the point. A product, or a sum on the way, of more than
/// 127 binary digits counts as no.
pub fn meets(rows: &[&Row], witness: &Witness) -> bool
    ensures { result ≡ meets witness.now.values.items witness.now.denominator (lent rows.now) }
{
    witness.denominator > 0 && meets_all(rows, witness)
}

/// Whether each row holds at the point, without a number that is too long.
fn meets_all(rows: &[&Row], witness: &Witness) -> bool
    requires { pos 0 <ℤ witness.now.denominator }
    ensures { result ≡ list_all (λ r. meets_row witness.now.values.items witness.now.denominator r) (lent rows.now) }
{
    for row in rows {
        if !meets_row(row, witness) {
            return false;
        }
    }
    true
}

/// Whether the row holds at the point, without a number that is too long.
fn meets_row(row: &Row, witness: &Witness) -> bool
    requires { pos 0 <ℤ witness.now.denominator }
    ensures { result ≡ meets_row witness.now.values.items witness.now.denominator row.now }
{
    match row_at(row, witness) {
        Some(sum) => row.op.meets_zero(sum),
        None => false,
    }
}

/// Whether the denominator isn't negative and each row holds at the point, or along the direction that is meant with 0,
/// where one by `<` is taken for one by `<=`. A product, or a sum on the way, of more than 127 binary digits counts as
/// no.
pub fn leans(rows: &[&Row], witness: &Witness) -> bool
    ensures { result ≡ leans witness.now.values.items witness.now.denominator (lent rows.now) }
{
    witness.denominator >= 0 && leans_all(rows, witness)
}

/// Whether each row holds so, without a number that is too long.
fn leans_all(rows: &[&Row], witness: &Witness) -> bool
    requires { pos 0 ≤ℤ witness.now.denominator }
    ensures { result ≡ list_all (λ r. leans_row witness.now.values.items witness.now.denominator r) (lent rows.now) }
{
    for row in rows {
        if !leans_row(row, witness) {
            return false;
        }
    }
    true
}

/// Whether the row holds so, without a number that is too long.
fn leans_row(row: &Row, witness: &Witness) -> bool
    requires { pos 0 ≤ℤ witness.now.denominator }
    ensures { result ≡ leans_row witness.now.values.items witness.now.denominator row.now }
{
    match row_at(row, witness) {
        Some(sum) => weakly(row.op).meets_zero(sum),
        None => false,
    }
}

/// `<=` for `<`.
fn weakly(op: RowOp) -> RowOp
    ensures { result ≡ weakly op }
{
    match op {
        RowOp::Zero => RowOp::Zero,
        RowOp::AtMost | RowOp::Below => RowOp::AtMost,
    }
}

/// What the row comes to at the point, over its denominator; none where a number on the way is too long.
pub fn row_at(row: &Row, witness: &Witness) -> Option<i128>
    requires { pos 0 ≤ℤ witness.now.denominator }
    ensures { MatchOption result (row_is_long witness.now.values.items witness.now.denominator row.now ≡ true)
        (λ z. (row_is_long witness.now.values.items witness.now.denominator row.now ≡ false)
        × (z ≡ row_at row.now (point_of witness.now.values.items witness.now.denominator))) }
{
    let constant = constant_at(row, witness)?;
    with_coefs(row.coefs.list(), &witness.values, constant)
}

/// The constant times the denominator; none where that is too long.
fn constant_at(row: &Row, witness: &Witness) -> Option<i128>
    ensures { MatchOption result (term_is_long row.now.constant witness.now.denominator (pos 0) ≡ true)
        (λ z. (term_is_long row.now.constant witness.now.denominator (pos 0) ≡ false)
        × (z ≡ row.now.constant *ℤ witness.now.denominator +ℤ pos 0)) }
{
    with_term(row.constant, witness.denominator, 0)
}

/// The numbers of the slots, each times its coefficient, and what there is before; none where a number on the way is
/// too long.
fn with_coefs(coefs: &[(Slot, i128)], values: &[(Slot, i128)], before: i128) -> Option<i128>
    ensures { MatchOption result (coefs_are_long values.now before coefs.now ≡ true)
        (λ z. (coefs_are_long values.now before coefs.now ≡ false) × (z ≡ sum_with values.now before coefs.now)) }
{
    let mut sum = before;
    for coef in coefs {
        sum = with_coef(coef, values, sum)?;
    }
    Some(sum)
}

/// The number of the slot times its coefficient, and the sum before; none where one of these is too long.
fn with_coef(coef: &(Slot, i128), values: &[(Slot, i128)], sum: i128) -> Option<i128>
    ensures { MatchOption result (term_is_long coef.now.1 (number_from (pos 0) values.now coef.now.0) sum ≡ true)
        (λ z. (term_is_long coef.now.1 (number_from (pos 0) values.now coef.now.0) sum ≡ false)
        × (z ≡ coef.now.1 *ℤ number_from (pos 0) values.now coef.now.0 +ℤ sum)) }
{
    with_term(coef.1, number_of(values, coef.0), sum)
}

/// The number of the slot, the last one where it has several; 0 where it has none.
pub fn number_of(values: &[(Slot, i128)], slot: Slot) -> i128
    ensures { result ≡ number_from (pos 0) values.now slot }
{
    let mut number = 0;
    for (other, value) in values {
        if slot.is_same(*other) {
            number = *value;
        }
    }
    number
}
