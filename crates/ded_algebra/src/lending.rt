//! Tuples near a window, with a count of those that are looked at.
ghost use Rattle.std.specs.Prelude.{◌≡◌, ◌≤◌, ◌<◌, ◌+◌, length, IfOk};
ghost use Rattle.std.specs.Option.{option_map};
ghost use Rattle.ded_ranges.specs.Windows.{IsNear, AreLent};
ghost use Rattle.ded_packed.specs.Lent.{lent};
ghost use Rattle.ded_algebra.specs.Evaluation.{given_tuples};

use crate::evaluation::Relations;
use ded_model::memory::NoMemory;
use ded_model::name::Name;
use ded_model::steps::Steps;
use ded_model::tuple::Tuple;
use ded_packed::Lent;
use ded_ranges::Window;
use std::alloc::Global;
use std::marker::Brand;
use std::sync::ledger::{Blank, Ledger};

/// The tuples that may hold somewhere in the window, in order. Each of the list is a step.
///
/// # Errors
/// Out of memory.
pub fn near_among<'a, L: Ledger>(
    alloc: Global,
    tuples: &'a [Tuple],
    window: &Window,
    steps: &mut Steps<L>,
) -> Result<Vec<Lent<'a>>, NoMemory>
    ensures found { IfOk result (λ found. IsNear window.now (lent found.items) tuples.now) }
    ensures steps { steps.new ≤ steps.old + length tuples.now }
    ensures read { IfOk result (λ found. steps.old + length found.items ≤ steps.new) }
{
    count_all(tuples, steps);
    window.near(alloc, tuples)
}

/// Counts a step for each tuple.
fn count_all<L: Ledger>(tuples: &[Tuple], steps: &mut Steps<L>)
    ensures { steps.new ≡ steps.old + length tuples.now }
{
    for _ in 0..tuples.len() {
        steps.tick();
    }
}

/// The tuples of the name as [`Relations::near`] gives them, with the steps counted on a new ledger.
///
/// # Errors
/// Out of memory.
pub fn near_in<'a, R: Relations>(
    alloc: Global,
    relations: &'a R,
    name: &Name,
    window: &Window,
) -> Result<Option<Vec<Lent<'a>>>, NoMemory>
    ensures { IfOk result (λ o. AreLent window.now (option_map (λ ts. lent ts.items) o)
        (given_tuples (R.catalogue relations.now) name.now)) }
{
    near_over::<R, Brand>(alloc, relations, name, window, Blank::new(1))
}

/// The same, over the ledger of the blank.
///
/// # Errors
/// Out of memory.
fn near_over<'a, R: Relations, L: Ledger>(
    alloc: Global,
    relations: &'a R,
    name: &Name,
    window: &Window,
    blank: Blank,
) -> Result<Option<Vec<Lent<'a>>>, NoMemory>
    requires name { blank.name ≡ L.name }
    requires parts { blank.parts ≡ L.parts }
    requires some { 0 < L.parts }
    ensures { IfOk result (λ o. AreLent window.now (option_map (λ ts. lent ts.items) o)
        (given_tuples (R.catalogue relations.now) name.now)) }
{
    let mut steps = Steps::<L>::new(blank);
    relations.near(alloc, name, window, &mut steps)
}
