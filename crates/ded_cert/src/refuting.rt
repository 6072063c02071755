//! Multipliers for rows that hold nowhere together, after Farkas.
//!
//! Rows with tags are eliminated slot after slot until they have none of the rows' own slots. What is left holds where
//! the tags and the total are 0 and the slack is positive only where the rows themselves hold. So where these hold
//! nowhere, a row that is left is false there, and the coefficients of its tags are the multipliers.
ghost use Rattle.std.specs.Prelude.{◌≡◌, ◌+◌, ◌≤◌, ◌<◌, ◌^◌, ℕ, pos, ◌-ℤ◌, ◌≤ℤ◌, true, false, IfOk, IsErrOf};
ghost use Rattle.std.specs.Prelude.{MatchOption};
ghost use Rattle.std.specs.List.{AllByRecursion};
ghost use Rattle.ded_model.specs.declared.memory.Refused.TheVariants.{Wide};
ghost use Rattle.ded_num.specs.Length.{IsShort};
ghost use Rattle.ded_model.specs.Cell.{conj_holds, HoldsNowhere};
ghost use Rattle.ded_model.specs.Coefs.{coef_at};
ghost use Rattle.ded_model.specs.Lines.{In};
ghost use Rattle.ded_model.specs.Row.{row_holds};
ghost use Rattle.ded_elimination.specs.LinearAtoms.{IsLinearAtom};
ghost use Rattle.ded_weighing.specs.Columns.{lent};
ghost use Rattle.ded_weighing.specs.Weighing.{refutes};
ghost use Rattle.ded_cert.specs.Certified.{magnitudes};
ghost use Rattle.ded_cert.specs.Tracing.{tag, multipliers, is_refuting, AreWideRows};

use crate::projecting::without_slots;
use crate::tracing::{first_free, tag, traces};
use ded_model::certificate::Multipliers;
use ded_model::limits;
use ded_model::memory::{NoMemory, Refused};
use ded_model::row::Row;
use ded_weighing::slots_of;
use std::alloc::Global;

/// How many slots rows have at most that aren't wide, since their numbers have at least one digit.
const MOST_SLOTS: usize = 5;

/// Numbers of which the sum of the rows, each times its number, is false, for rows that hold nowhere together.
///
/// # Errors
/// `Wide` only where eliminating all slots of the rows, and one more, may make numbers of more than 127 binary digits;
/// otherwise out of memory, or of slots, of which there are 2^32.
pub(crate) fn refutation(alloc: Global, rows: &[&Row]) -> Result<Multipliers, Refused>
    requires normal { AllByRecursion IsLinearAtom (lent rows.now) }
    requires nowhere { HoldsNowhere (conj_holds row_holds (lent rows.now)) }
    ensures refutes { IfOk result (λ ms. refutes ms (lent rows.now) ≡ true) }
    ensures small { IfOk result (λ ms. magnitudes ms < 2 ^ 63) }
    ensures wide { IsErrOf result Wide → AreWideRows (lent rows.now) }
{
    let Some(first) = first_free(rows) else {
        return Err(Refused::Memory);
    };
    let slots = slots_of(alloc, rows)?;
    if slots.len() > MOST_SLOTS {
        return Err(Refused::Wide);
    }
    let left = without_slots(alloc, traces(alloc, rows, first)?, &slots)?;
    let Some(row) = find_refuting(&left, first) else {
        return Err(Refused::Wide); // some row is, where the rows hold nowhere
    };
    if row.coefs.at(tag(first)) >= i128::from(limits::TOO_GREAT) {
        return Err(Refused::Wide);
    }
    Ok(multipliers_of(alloc, row, rows.len(), first + 2)?)
}

/// The first of the rows that is false where all tags are 0 and the slack is positive, however little.
fn find_refuting(rows: &[Row], first: u32) -> Option<&Row>
    requires { first < 2 ^ 31 }
    ensures { MatchOption result (AllByRecursion (λ r. is_refuting first r ≡ false) rows.now) (λ r. In r.now rows.now
        × (is_refuting first r.now ≡ true)) }
{
    for row in rows {
        if is_refuting(row, first) {
            return Some(row);
        }
    }
    None
}

/// Whether the row is false there.
fn is_refuting(row: &Row, first: u32) -> bool
    requires { first < 2 ^ 31 }
    ensures { result ≡ is_refuting first row.now }
{
    row.constant > 0 || (row.constant == 0 && row.coefs.at(tag(first + 1)) > 0)
}

/// The multipliers of that many rows, by the coefficients of their tags.
fn multipliers_of(
    alloc: Global,
    row: &Row,
    count: usize,
    first_tag: u32,
) -> Result<Multipliers, NoMemory>
    requires first { first_tag < 2 ^ 31 + 2 }
    requires count { count < 2 ^ 30 }
    requires positive { (n : ℕ) → first_tag ≤ n → pos 0 ≤ℤ coef_at row.now.coefs (tag n) }
    ensures { IfOk result (λ ms. ms ≡ multipliers row.now first_tag count) }
{
    let mut list = Vec::new(alloc);
    let mut number = first_tag;
    for _ in 0..count {
        list.push(difference(row, number))?;
        number += 2;
    }
    Ok(Multipliers { list })
}

/// The coefficient of the tag, less that of the next one.
fn difference(row: &Row, number: u32) -> i128
    requires number { number + 1 < 2 ^ 32 }
    requires here { pos 0 ≤ℤ coef_at row.now.coefs (tag number) }
    requires next { pos 0 ≤ℤ coef_at row.now.coefs (tag (number + 1)) }
    ensures value { result ≡ coef_at row.now.coefs (tag number) -ℤ coef_at row.now.coefs (tag (number + 1)) }
    ensures short { IsShort result }
{
    row.coefs.at(tag(number)) - row.coefs.at(tag(number + 1))
}
