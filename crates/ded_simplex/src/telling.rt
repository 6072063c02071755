//! Whether rows hold somewhere, as far as the search finds what shows it.
ghost use Rattle.std.specs.Prelude.{◌≡◌, IfOk};
ghost use Rattle.std.specs.List.{AllByRecursion};
ghost use Rattle.ded_model.specs.Coefs.{AreCoefs};
ghost use Rattle.ded_weighing.specs.Columns.{lent};
ghost use Rattle.ded_simplex.specs.Sure.{IsSure};

use crate::fixed::Fixed;
use crate::hint::Hint;
use crate::search::{Found, find_from};
use ded_model::memory::NoMemory;
use ded_model::row::Row;
use ded_theory::Verdict;
use ded_weighing::{Witness, are_refuted, meets};
use std::alloc::Global;

/// Whether some point satisfies all the rows: `Inhabited` and `Empty` are so, as what is found for them is checked.
/// `Unknown` where nothing is found, or it doesn't pass its check.
///
/// # Errors
/// Out of memory.
pub fn told(alloc: Global, rows: &[Row]) -> Result<Verdict, NoMemory>
    requires { AllByRecursion (λ r. AreCoefs r.coefs) rows.now }
    ensures { IfOk result (λ v. IsSure rows.now v) }
{
    let lent = lent(alloc, rows)?;
    told_from(alloc, &lent, &mut Hint::new(alloc))
}

/// Whether some point satisfies all the rows, as [`told`] says it. The search among many rows begins with those of the
/// hint, which is then what it came upon, for the next search over nearly the same rows.
///
/// # Errors
/// Out of memory.
pub fn told_from(alloc: Global, rows: &[&Row], hint: &mut Hint) -> Result<Verdict, NoMemory>
    requires { AllByRecursion (λ r. AreCoefs r.coefs) (lent rows.now) }
    ensures { IfOk result (λ v. IsSure (lent rows.now) v) }
{
    match told_at_fixed(alloc, rows)? {
        Verdict::Empty => Ok(Verdict::Empty),
        Verdict::Inhabited => Ok(Verdict::Inhabited),
        Verdict::Unknown => told_by_search(alloc, rows, hint),
    }
}

/// The same where equalities of one slot each fix a point: whether that satisfies the rows. `Unknown` where they don't.
fn told_at_fixed(alloc: Global, rows: &[&Row]) -> Result<Verdict, NoMemory>
    requires { AllByRecursion (λ r. AreCoefs r.coefs) (lent rows.now) }
    ensures { IfOk result (λ v. IsSure (lent rows.now) v) }
{
    let Some(fixed) = Fixed::new(alloc, rows)? else {
        return Ok(Verdict::Unknown);
    };
    if let Verdict::Inhabited = checked_point(rows, &fixed.witness) {
        return Ok(Verdict::Inhabited);
    }
    match fixed.multipliers(alloc, rows)? {
        Some(multipliers) => checked_multipliers(alloc, rows, &multipliers),
        None => Ok(Verdict::Unknown),
    }
}

/// The same by a search, which begins among many rows with those of the hint.
fn told_by_search(alloc: Global, rows: &[&Row], hint: &mut Hint) -> Result<Verdict, NoMemory>
    requires { AllByRecursion (λ r. AreCoefs r.coefs) (lent rows.now) }
    ensures { IfOk result (λ v. IsSure (lent rows.now) v) }
{
    match find_from(alloc, rows, hint)? {
        Found::Point(witness) => Ok(checked_point(rows, &witness)),
        Found::Multipliers(multipliers) => checked_multipliers(alloc, rows, &multipliers),
        Found::Nothing => Ok(Verdict::Unknown),
    }
}

/// `Inhabited` where the rows hold at the point.
fn checked_point(rows: &[&Row], witness: &Witness) -> Verdict
    ensures { IsSure (lent rows.now) result }
{
    if meets(rows, witness) {
        Verdict::Inhabited
    } else {
        Verdict::Unknown
    }
}

/// `Empty` where the numbers refute the rows.
fn checked_multipliers(
    alloc: Global,
    rows: &[&Row],
    multipliers: &[i128],
) -> Result<Verdict, NoMemory>
    requires { AllByRecursion (λ r. AreCoefs r.coefs) (lent rows.now) }
    ensures { IfOk result (λ v. IsSure (lent rows.now) v) }
{
    if are_refuted(alloc, multipliers, rows)? {
        Ok(Verdict::Empty)
    } else {
        Ok(Verdict::Unknown)
    }
}

/// The rows, behind references.
pub(crate) fn lent<'a>(alloc: Global, rows: &'a [Row]) -> Result<Vec<&'a Row>, NoMemory>
    ensures { IfOk result (λ v. lent v.items ≡ rows.now) }
{
    let mut lent = Vec::with_capacity(alloc, rows.len())?;
    for row in rows {
        lent.push(row)?;
    }
    Ok(lent)
}
