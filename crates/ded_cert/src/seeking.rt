//! What the simplex finds of rows: that they hold somewhere, or multipliers that refute them.
ghost use Rattle.std.specs.Prelude.{◌≡◌, ◌<◌, ◌^◌, true, IfOk};
ghost use Rattle.std.specs.List.{AllByRecursion};
ghost use Rattle.ded_model.specs.Coefs.{AreCoefs};
ghost use Rattle.ded_weighing.specs.Columns.{lent};
ghost use Rattle.ded_cert.specs.Certified.{magnitudes};
ghost use Rattle.ded_cert.specs.Seeking.{IsSought};

use ded_model::certificate::Multipliers;
use ded_model::limits;
use ded_model::memory::{NoMemory, Refused};
use ded_model::row::Row;
use ded_simplex::{Found, find};
use ded_weighing::{Witness, meets, refutes};
use std::alloc::{AllocError, Global};

/// What is found of some rows.
#[derive(Drop)]
pub(crate) enum Sought {
    /// They hold somewhere.
    Somewhere,
    /// They hold nowhere, as these numbers show.
    Nowhere(Multipliers),
    /// Neither was found.
    Nothing,
}

/// Looks for a point at which the rows hold, or for numbers that refute them and of which the magnitudes sum to at most
/// 2^63 - 1.
///
/// # Errors
/// Out of memory.
pub(crate) fn seek(alloc: Global, rows: &[&Row]) -> Result<Sought, NoMemory>
    requires { AllByRecursion (λ r. AreCoefs r.coefs) (lent rows.now) }
    ensures { IfOk result (λ s. IsSought (lent rows.now) s) }
{
    match find(alloc, rows)? {
        Found::Point(witness) => Ok(at_point(rows, &witness)),
        Found::Multipliers(numbers) => by_numbers(alloc, rows, numbers),
        Found::Nothing => Ok(Sought::Nothing),
    }
}

/// `Somewhere` where the rows hold at the point.
fn at_point(rows: &[&Row], witness: &Witness) -> Sought
    ensures { IsSought (lent rows.now) result }
{
    if meets(rows, witness) {
        Sought::Somewhere
    } else {
        Sought::Nothing
    }
}

/// `Nowhere` where the numbers are small and refute the rows.
fn by_numbers(alloc: Global, rows: &[&Row], numbers: Vec<i128>) -> Result<Sought, NoMemory>
    requires { AllByRecursion (λ r. AreCoefs r.coefs) (lent rows.now) }
    ensures { IfOk result (λ s. IsSought (lent rows.now) s) }
{
    if !are_small(&numbers) {
        return Ok(Sought::Nothing);
    }
    match refutes(alloc, &numbers, rows) {
        Ok(true) => Ok(Sought::Nowhere(Multipliers { list: numbers })),
        Ok(false) | Err(Refused::Wide) => Ok(Sought::Nothing),
        Err(Refused::Memory) => Err(AllocError),
    }
}

/// Whether the magnitudes sum to at most 2^63 - 1.
fn are_small(numbers: &[i128]) -> bool
    ensures { result ≡ true → magnitudes numbers.now < 2 ^ 63 }
{
    let mut room = u128::from(limits::TOO_GREAT);
    for number in numbers {
        let size = number.unsigned_abs();
        if size >= room {
            return false;
        }
        room -= size;
    }
    true
}
