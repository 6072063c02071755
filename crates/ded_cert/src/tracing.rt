//! Rows with tags, by which a sum of multiples of them tells the multipliers.
//!
//! Each row by `<=` or `<` gets a slot of its own, its tag, with the coefficient 1, and an equality becomes two such
//! rows, one in each direction. All of them have the total, a slot more, and those by `<` the slack. They are all
//! compared by `<=`: a row by `<` holds where its sum and some positive slack are at most 0.
ghost use Rattle.std.specs.Prelude.{◌≡◌, ◌+◌, ◌≤◌, ◌<◌, ◌++◌, ◌^◌, length, IfOk, OnOk, MatchOption};
ghost use Rattle.ded_num.specs.Length.{IsShort};
ghost use Rattle.ded_model.specs.Coefs.{AllBelow};
ghost use Rattle.ded_model.specs.Normal.{normal_row};
ghost use Rattle.ded_weighing.specs.Columns.{lent};
ghost use Rattle.ded_cert.specs.Tracing.{tag, slack_of, tagged, turned_coefs, forward, backward, traces_by, traces};
ghost use Rattle.ded_cert.specs.Tracing.{AreBelow};

use ded_model::memory::NoMemory;
use ded_model::row::{Coefs, Row, RowOp};
use ded_model::slot::{Slot, Sort};
use ded_row::normal;
use std::alloc::Global;

/// The rational slot of this number.
pub(crate) fn tag(number: u32) -> Slot
    ensures { result ≡ tag number }
{
    Slot {
        number,
        sort: Sort::Rat,
    }
}

/// A number above those of all slots of the rows, with room behind it for two slots of each row and two more.
pub(crate) fn first_free(rows: &[&Row]) -> Option<u32>
    ensures { MatchOption result (Unit {0}) (λ b. AreBelow b (lent rows.now) × (b < 2 ^ 31)
        × (length rows.now < 2 ^ 30)) }
{
    let mut least = 0;
    for row in rows {
        least = above(row.coefs.list(), least);
    }
    if least < 1 << 31 && rows.len() < 1 << 30 {
        Some(least)
    } else {
        None
    }
}

/// The least number from this one on that is above those of all slots of the coefficients, or 2^32 - 1 where that is
/// less.
fn above(coefs: &[(Slot, i128)], least: u32) -> u32
    ensures least { least ≤ result }
    ensures above { result < 2 ^ 31 → AllBelow result coefs.now }
{
    let mut number = least;
    for (slot, _) in coefs {
        number = past(slot.number, number);
    }
    number
}

/// The least number from this one on that is above the other one, or 2^32 - 1 where that is less.
fn past(other: u32, least: u32) -> u32
    ensures least { least ≤ result }
    ensures above { result < 2 ^ 31 → other < result }
{
    if other < least {
        least
    } else {
        other.saturating_add(1)
    }
}

/// The rows with tags from the number on, the total before them by two, and the slack by one.
///
/// # Errors
/// Out of memory.
pub(crate) fn traces(alloc: Global, rows: &[&Row], first: u32) -> Result<Vec<Row>, NoMemory>
    requires first { first < 2 ^ 31 }
    requires count { length rows.now < 2 ^ 30 }
    ensures { IfOk result (λ v. v.items ≡ traces first (first + 2) (lent rows.now)) }
{
    let mut traced = Vec::new(alloc);
    let mut number = first + 2;
    for row in rows {
        add_traces(&mut traced, row, first, number)?;
        number += 2;
    }
    Ok(traced)
}

/// Adds the row with a tag, and the turned one too where it is an equality.
fn add_traces(traced: &mut Vec<Row>, row: &Row, first: u32, number: u32) -> Result<(), NoMemory>
    requires first { first < 2 ^ 31 }
    requires number { number + 1 < 2 ^ 32 }
    ensures { OnOk result (traced.new.items ≡ traced.old.items ++ traces_by row.now.op first number row.now) }
{
    traced.push(forward(row, first, number)?)?;
    if let RowOp::Zero = row.op {
        traced.push(backward(row, first, number)?)?;
    }
    Ok(())
}

/// The row with a tag.
fn forward(row: &Row, first: u32, number: u32) -> Result<Row, NoMemory>
    requires first { first < 2 ^ 31 }
    ensures { IfOk result (λ r. r ≡ normal_row (forward first number row.now)) }
{
    tagged(
        row.coefs.copy()?,
        slack_of(row.op),
        row.constant,
        first,
        number,
    )
}

/// The turned row with the next tag.
fn backward(row: &Row, first: u32, number: u32) -> Result<Row, NoMemory>
    requires first { first < 2 ^ 31 }
    requires number { number + 1 < 2 ^ 32 }
    ensures { IfOk result (λ r. r ≡ normal_row (backward first number row.now)) }
{
    tagged(turned(&row.coefs)?, 0, -row.constant, first, number + 1)
}

/// The coefficients with all signs turned.
fn turned(coefs: &Coefs) -> Result<Coefs, NoMemory>
    ensures { IfOk result (λ cs. cs ≡ turned_coefs coefs.now) }
{
    let mut turned = coefs.copy()?;
    turned.divide(-1);
    Ok(turned)
}

/// The coefficient at the slack of a row with this op.
fn slack_of(op: RowOp) -> i128
    ensures value { result ≡ slack_of op }
    ensures short { IsShort result }
{
    match op {
        RowOp::Zero | RowOp::AtMost => 0,
        RowOp::Below => 1,
    }
}

/// The sum of the coefficients, the total, a multiple of the slack, a tag and the constant, compared by `<=`.
fn tagged(
    mut coefs: Coefs,
    slack: i128,
    constant: i128,
    first: u32,
    number: u32,
) -> Result<Row, NoMemory>
    requires slack { IsShort slack }
    requires constant { IsShort constant }
    requires first { first < 2 ^ 31 }
    ensures { IfOk result (λ r. r ≡ normal_row (tagged first slack number coefs constant)) }
{
    coefs.put(tag(first), 1)?;
    coefs.put(tag(first + 1), slack)?;
    coefs.put(tag(number), 1)?;
    Ok(normal(Row {
        coefs,
        constant,
        op: RowOp::AtMost,
    }))
}
