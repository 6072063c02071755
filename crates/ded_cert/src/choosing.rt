//! A choice of few rows that hold nowhere together already, so that multipliers for these are found soon.
ghost use Rattle.std.specs.Prelude.{◌≡◌, ◌<◌, ◌^◌, Bool, true, List, [], ◌∷◌, ◌++◌, length, IfOk, OnOk, IsErrOf};
ghost use Rattle.std.specs.List.{AllByRecursion};
ghost use Rattle.ded_model.specs.declared.memory.Refused.TheVariants.{Wide};
ghost use Rattle.ded_num.specs.Length.{IsShort};
ghost use Rattle.ded_model.specs.Cell.{conj_holds, HoldsNowhere};
ghost use Rattle.ded_model.specs.Row.{row_holds};
ghost use Rattle.ded_elimination.specs.LinearAtoms.{IsLinearAtom};
ghost use Rattle.ded_weighing.specs.Columns.{lent};
ghost use Rattle.ded_weighing.specs.Weighing.{refutes};
ghost use Rattle.ded_cert.specs.Certified.{magnitudes};
ghost use Rattle.ded_cert.specs.Choosing.{chosen, spread};
ghost use Rattle.ded_cert.specs.Tracing.{AreWideRows};

use crate::refuting::refutation;
use ded_linear::Linear;
use ded_model::certificate::Multipliers;
use ded_model::memory::{NoMemory, Refused};
use ded_model::row::Row;
use ded_theory::{Theory, Verdict};
use std::alloc::Global;

/// Numbers of which the sum of the rows, each times its number, is false, for rows that hold nowhere together: 0 for
/// each row but for some that do so already, and without any one of which the others are not known to.
///
/// # Errors
/// As [`refutation`].
pub(crate) fn short_refutation(alloc: Global, rows: &[&Row]) -> Result<Multipliers, Refused>
    requires normal { AllByRecursion IsLinearAtom (lent rows.now) }
    requires nowhere { HoldsNowhere (conj_holds row_holds (lent rows.now)) }
    ensures refutes { IfOk result (λ ms. refutes ms (lent rows.now) ≡ true) }
    ensures small { IfOk result (λ ms. magnitudes ms < 2 ^ 63) }
    ensures wide { IsErrOf result Wide → AreWideRows (lent rows.now) }
{
    let flags = needed(alloc, rows)?;
    let few = chosen(alloc, rows, &flags)?;
    let numbers = refutation(alloc, &few)?;
    Ok(spread(alloc, &flags, &numbers)?)
}

/// A choice of rows that hold nowhere together, as the rows do. Each row is left out in turn, if the others are known
/// to do so.
fn needed(alloc: Global, rows: &[&Row]) -> Result<Vec<bool>, NoMemory>
    requires normal { AllByRecursion IsLinearAtom (lent rows.now) }
    requires nowhere { HoldsNowhere (conj_holds row_holds (lent rows.now)) }
    ensures nowhere { IfOk result (λ fs. HoldsNowhere (conj_holds row_holds (chosen fs.items (lent rows.now)))) }
    ensures count { IfOk result (λ fs. length fs.items ≡ length rows.now) }
{
    let mut flags = vec![in alloc; true; rows.len()]?;
    for i in 0..rows.len() {
        flags = without(alloc, rows, flags, i)?;
    }
    Ok(flags)
}

/// The choice without the row at the place, where it is known to hold nowhere; otherwise the choice.
fn without(
    alloc: Global,
    rows: &[&Row],
    flags: Vec<bool>,
    place: usize,
) -> Result<Vec<bool>, NoMemory>
    requires normal { AllByRecursion IsLinearAtom (lent rows.now) }
    requires nowhere { HoldsNowhere (conj_holds row_holds (chosen flags.items (lent rows.now))) }
    requires count { length flags.items ≡ length rows.now }
    requires place { place < length rows.now }
    ensures nowhere { IfOk result (λ fs. HoldsNowhere (conj_holds row_holds (chosen fs.items (lent rows.now)))) }
    ensures count { IfOk result (λ fs. length fs.items ≡ length rows.now) }
{
    let mut fewer = flags.clone()?;
    fewer[place] = false;
    if hold_nowhere(alloc, rows, &fewer)? {
        Ok(fewer)
    } else {
        Ok(flags)
    }
}

/// Whether the chosen rows are known to hold nowhere.
fn hold_nowhere(alloc: Global, rows: &[&Row], flags: &[bool]) -> Result<bool, NoMemory>
    requires normal { AllByRecursion IsLinearAtom (lent rows.now) }
    requires count { length flags.now ≡ length rows.now }
    ensures { IfOk result (λ b. b ≡ true → HoldsNowhere (conj_holds row_holds (chosen flags.now (lent rows.now)))) }
{
    let few = chosen(alloc, rows, flags)?;
    match Linear::refute(alloc, &copied(alloc, &few)?)? {
        Verdict::Empty => Ok(true),
        Verdict::Inhabited | Verdict::Unknown => Ok(false),
    }
}

/// The chosen rows.
fn chosen<'a>(alloc: Global, rows: &[&'a Row], flags: &[bool]) -> Result<Vec<&'a Row>, NoMemory>
    requires { length flags.now ≡ length rows.now }
    ensures { IfOk result (λ v. lent v.items ≡ chosen flags.now (lent rows.now)) }
{
    let mut few = Vec::new(alloc);
    for i in 0..rows.len() {
        add_chosen(&mut few, rows[i], flags[i])?;
    }
    Ok(few)
}

/// Adds the row where it is chosen.
fn add_chosen<'a>(few: &mut Vec<&'a Row>, row: &'a Row, flag: bool) -> Result<(), NoMemory>
    ensures { OnOk result (lent few.new.items ≡ lent few.old.items ++ chosen (flag ∷ []) (row.now ∷ [])) }
{
    if flag {
        few.push(row)?;
    }
    Ok(())
}

/// Copies of the rows.
pub(crate) fn copied(alloc: Global, rows: &[&Row]) -> Result<Vec<Row>, NoMemory>
    ensures { IfOk result (λ v. v.items ≡ lent rows.now) }
{
    let mut copies = Vec::with_capacity(alloc, rows.len())?;
    for row in rows {
        copies.push(row.copy()?)?;
    }
    Ok(copies)
}

/// The numbers of the chosen rows, and 0 for each other one.
fn spread(alloc: Global, flags: &[bool], numbers: &Multipliers) -> Result<Multipliers, NoMemory>
    ensures { IfOk result (λ ms. ms ≡ spread flags.now numbers.now) }
{
    let mut list = Vec::with_capacity(alloc, flags.len())?;
    let mut rest = numbers.list.as_slice();
    for flag in flags {
        let next = next_number(*flag, rest);
        list.push(next.number)?;
        rest = next.rest;
    }
    Ok(Multipliers { list })
}

/// A number, and those behind it.
#[derive(Clone, Copy)]
struct NextNumber<'a> {
    number: i128,
    rest: &'a [i128],
}

/// The next number of the list where it is that of a chosen row, and otherwise 0.
fn next_number<'a>(flag: bool, numbers: &'a [i128]) -> NextNumber<'a>
    ensures spread { (fs : List Bool) → spread (flag ∷ fs) numbers.now ≡ result.number ∷ spread fs result.rest.now }
    ensures short { AllByRecursion IsShort numbers.now
        → IsShort result.number × AllByRecursion IsShort result.rest.now }
{
    match numbers {
        [number, rest @ ..] if flag => NextNumber {
            number: *number,
            rest,
        },
        _ => NextNumber {
            number: 0,
            rest: numbers,
        },
    }
}
