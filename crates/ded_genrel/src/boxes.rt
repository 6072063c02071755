//! Boxes round conjunctions.
ghost use Rattle.std.specs.Prelude.{◌≡◌, IfOk};
ghost use Rattle.std.specs.List.{AllByRecursion};
ghost use Rattle.ded_genrel.specs.Rounds.{AreRational, IsBoxOf, interval_of};

use ded_box::BoundBox;
use ded_model::bound::{Bound, Frac};
use ded_model::memory::NoMemory;
use ded_model::slot::Slot;
use ded_theory::{Span, Theory};
use std::alloc::Global;

/// The box of the bounds that the atoms give the slots. Its intervals are empty where they hold nowhere, and those of
/// atoms that aren't wide are exact.
///
/// # Errors
/// Out of memory.
pub fn box_round<T: Theory>(
    alloc: Global,
    atoms: &[T::Atom],
    slots: &[Slot],
) -> Result<BoundBox, NoMemory>
    requires normal { AllByRecursion T.normal atoms.now }
    requires rational { AreRational slots.now }
    ensures { IfOk result (λ x. IsBoxOf T.holds T.mentions T.lines slots.now atoms.now x) }
{
    let mut spans = Vec::with_capacity(alloc, slots.len())?;
    for slot in slots {
        spans.push(interval(T::bounds(alloc, atoms, *slot)?))?;
    }
    BoundBox::new(alloc, &spans)
}

/// The interval between bounds, an empty one where nothing is between them.
fn interval(span: Span) -> (Bound, Bound)
    ensures { result ≡ interval_of span }
{
    match span {
        Span::Nothing => {
            let zero = Frac { num: 0, den: 1 };
            (Bound::Excluded(zero), Bound::Excluded(zero))
        }
        Span::Exact(low, high) => (low, high),
        Span::Around(low, high) => (low, high),
    }
}
