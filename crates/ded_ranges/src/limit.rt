//! Limits, and whether they may hold in a reach.
ghost use Rattle.std.specs.Prelude.{◌≡◌, false, true};
ghost use Rattle.std.specs.List.{list_all};
ghost use Rattle.ded_ranges.specs.Boxes.{may_pass};
ghost use Rattle.ded_ranges.specs.Limits.{plus, times, turned, least_end, least_of, at_most_zero, below_zero, may_be};
ghost use Rattle.ded_ranges.specs.Limits.{may_meet, may_hold, IsSound};
ghost use Rattle.ded_ranges.specs.Tuples.{terms_of};

use crate::end::{End, FINE};
use crate::number::{product, sum};
use crate::reach::{Range, Reach};
use ded_model::row::{Row, RowOp};
use ded_model::slot::Slot;

/// A row over columns by their places: the sum of the terms, which are places and coefficients, and the constant stands
/// to 0 as the op says.
#[derive(Drop)]
pub struct Limit {
    pub terms: Vec<(usize, i128)>,
    pub constant: i128,
    pub op: RowOp,
}

/// Whether all limits may hold in the reach. Where it is false, no values in the reach meet all of them.
pub fn may_hold(reach: &Reach, limits: &[Limit]) -> bool
    ensures value { result ≡ may_hold reach.now limits.now }
    ensures sound { IsSound reach.now limits.now result }
{
    each_may_meet(reach, limits)
}

/// Whether each of the limits that have not just one term may be met in the reach.
pub(crate) fn others_may_hold(reach: &Reach, limits: &[Limit]) -> bool
    ensures { result ≡ list_all (may_pass reach.now) limits.now }
{
    limits.iter().all(|limit| may_pass(reach, limit))
}

/// Whether the limit has one term, or may be met in the reach.
fn may_pass(reach: &Reach, limit: &Limit) -> bool
    ensures { result ≡ may_pass reach.now limit.now }
{
    limit.terms.len() == 1 || may_meet(reach, limit)
}

/// Whether each of the limits may be met in the reach.
fn each_may_meet(reach: &Reach, limits: &[Limit]) -> bool
    ensures { result ≡ may_hold reach.now limits.now }
{
    limits.iter().all(|limit| may_meet(reach, limit))
}

/// Whether the limit may be met in the reach.
fn may_meet(reach: &Reach, limit: &Limit) -> bool
    ensures { result ≡ may_meet reach.now limit.now }
{
    let terms = &limit.terms;
    let constant = limit.constant;
    match limit.op {
        RowOp::Zero => at_most_zero(least(reach, terms, constant, false))
            && at_most_zero(least(reach, terms, constant, true)),
        RowOp::AtMost => at_most_zero(least(reach, terms, constant, false)),
        RowOp::Below => below_zero(least(reach, terms, constant, false)),
    }
}

/// Whether the row, over the columns of its slots' numbers, may hold in the reach.
pub(crate) fn row_may_hold(reach: &Reach, row: &Row) -> bool
    ensures { result ≡ may_be reach.now (terms_of row.now.coefs) row.now.constant row.now.op }
{
    let coefs = row.coefs.list();
    let constant = row.constant;
    match row.op {
        RowOp::Zero => at_most_zero(least_at(reach, coefs, constant, false))
            && at_most_zero(least_at(reach, coefs, constant, true)),
        RowOp::AtMost => at_most_zero(least_at(reach, coefs, constant, false)),
        RowOp::Below => below_zero(least_at(reach, coefs, constant, false)),
    }
}

/// Whether what is at least the number, if there is one, may be at most 0.
fn at_most_zero(least: Option<i128>) -> bool
    ensures { result ≡ at_most_zero least }
{
    match least {
        Some(sum) => sum <= 0,
        None => true,
    }
}

/// Whether what is at least the number, if there is one, may be below 0.
fn below_zero(least: Option<i128>) -> bool
    ensures { result ≡ below_zero least }
{
    match least {
        Some(sum) => sum < 0,
        None => true,
    }
}

/// A number at most the sum of the terms and the constant, or its negative, in units, at all values of the reach, if
/// one is known.
fn least(reach: &Reach, terms: &[(usize, i128)], constant: i128, flipped: bool) -> Option<i128>
    ensures { result ≡ least_of reach.now terms.now constant flipped }
{
    let mut sum = product(flipped, constant, FINE);
    for i in 0..terms.len() {
        let (place, a) = terms[i];
        sum = with_term(sum, reach.at(place), a, flipped);
    }
    sum
}

/// The same of coefficients, whose slots' numbers are the places.
fn least_at(reach: &Reach, coefs: &[(Slot, i128)], constant: i128, flipped: bool) -> Option<i128>
    ensures { result ≡ least_of reach.now (terms_of coefs.now) constant flipped }
{
    let mut sum = product(flipped, constant, FINE);
    for i in 0..coefs.len() {
        let (slot, a) = coefs[i];
        sum = with_term(sum, reach.at(slot.number as usize), a, flipped);
    }
    sum
}

/// The number with that of a term more, at values of the range.
fn with_term(sum_before: Option<i128>, range: Range, a: i128, flipped: bool) -> Option<i128>
    ensures { result ≡ plus sum_before (times (turned flipped a) (least_end (turned flipped a) range)) }
{
    let above = if flipped { a < 0 } else { 0 < a };
    let end = if above { range.low } else { range.high };
    added(sum_before, flipped, a, end)
}

/// The number with that of a coefficient times an end more.
fn added(sum_before: Option<i128>, flipped: bool, a: i128, end: End) -> Option<i128>
    ensures { result ≡ plus sum_before (times (turned flipped a) end) }
{
    sum(sum_before?, product(flipped, a, end.units()?)?)
}
