//! The atom at which a part is cut in two.
ghost use Rattle.std.specs.Prelude.{◌≡◌, ◌<◌, length, IfOk, IfSome};
ghost use Rattle.ded_model.specs.declared.slot.Sort.TheVariants.{Rat};
ghost use Rattle.ded_genrel.specs.Rounds.{AreRational};
ghost use Rattle.ded_complement.specs.Boxed.{conjs_in, AreBoxed};
ghost use Rattle.ded_complement.specs.Parts.{ArePlaces};
ghost use Rattle.ded_complement.specs.Pieces.{all_atoms, IsAmong};

use crate::boxed::Boxed;
use ded_box::may_meet;
use ded_model::bound::Bound;
use ded_model::memory::NoMemory;
use ded_model::slot::Slot;
use ded_theory::{Span, Theory};
use std::alloc::Global;
use std::cmp::Ordering;

/// Where a conjunction begins at a slot, and its place.
#[derive(Clone, Copy)]
struct Start {
    low: Bound,
    place: usize,
}

/// An atom that bounds the slot of the column from below, of the conjunction in the middle of those at the places by
/// where they begin there; none where it has no such atom.
///
/// # Errors
/// Out of memory.
pub(crate) fn splitter<T: Theory>(
    places: &Vec<usize>,
    taken: &[Boxed<T::Atom>],
    slots: &[Slot],
    column: usize,
) -> Result<Option<T::Atom>, NoMemory>
    requires rational { AreRational slots.now }
    requires boxed { AreBoxed T.holds T.normal slots.now taken.now }
    requires places { ArePlaces taken.now places.now.items }
    requires some { 0 < length places.now.items }
    requires column { column < length slots.now }
    ensures normal { IfOk result (λ o. IfSome o T.normal) }
    ensures among { IfOk result (λ o. IfSome o (IsAmong (all_atoms (conjs_in taken.now)))) }
{
    let alloc = *places.allocator();
    let place = middle::<T::Atom>(alloc, places, taken, column)?;
    for atom in &taken[place].conj {
        if begins::<T>(alloc, atom, slots[column])? {
            return Ok(Some(T::copy(atom)?));
        }
    }
    Ok(None)
}

/// Whether the atom bounds the slot from below and not from above.
fn begins<T: Theory>(alloc: Global, atom: &T::Atom, slot: Slot) -> Result<bool, NoMemory>
    requires normal { T.normal atom.now }
    requires rational { slot.sort ≡ Rat }
{
    let mut alone = Vec::with_capacity(alloc, 1)?;
    alone.push(T::copy(atom)?)?;
    match T::bounds(alloc, &alone, slot)? {
        Span::Exact(Bound::Infinite, _) => Ok(false),
        Span::Exact(_, Bound::Infinite) => Ok(true),
        _ => Ok(false),
    }
}

/// The place in the middle by where the conjunctions begin in the column.
fn middle<A: Drop>(
    alloc: Global,
    places: &[usize],
    taken: &[Boxed<A>],
    column: usize,
) -> Result<usize, NoMemory>
    requires places { ArePlaces taken.now places.now }
    requires some { 0 < length places.now }
    ensures { IfOk result (λ i. i < length taken.now) }
{
    let mut starts = Vec::with_capacity(alloc, places.len())?;
    for place in places {
        starts.push(Start {
            low: low_end(&taken[*place], column),
            place: *place,
        })?;
    }
    starts.sort_unstable_by(|a, b| order(&a.low, &b.low));
    Ok(starts[starts.len() / 2].place)
}

/// Where the box of the conjunction begins in the column.
fn low_end<A>(boxed: &Boxed<A>, column: usize) -> Bound {
    match boxed.bounds.spans().get(column) {
        Some(span) => span.0,
        None => Bound::Infinite,
    }
}

/// The order of two lower ends by where they lie, whether they are attained or not.
fn order(a: &Bound, b: &Bound) -> Ordering {
    if is_before(a, b) {
        Ordering::Less
    } else if is_before(b, a) {
        Ordering::Greater
    } else {
        Ordering::Equal
    }
}

/// Whether the first lower end lies before the second one.
fn is_before(a: &Bound, b: &Bound) -> bool {
    match b {
        Bound::Infinite => false,
        Bound::Excluded(f) | Bound::Included(f) => may_meet(a, &Bound::Excluded(*f)),
    }
}
