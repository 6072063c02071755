//! Parts of pieces, each with the places of the conjunctions that are near it.
ghost use Rattle.std.specs.Prelude.{◌≡◌, List, ◌∷◌, [], ◌++◌, IfOk, IfSome};
ghost use Rattle.std.specs.List.{AllByRecursion};
ghost use Rattle.ded_model.specs.declared.slot.Slot.{Slot};
ghost use Rattle.ded_genrel.specs.Rounds.{AreRational};
ghost use Rattle.ded_complement.specs.Boxed.{conjs_in, IsBoxed, AreBoxed};
ghost use Rattle.ded_complement.specs.Keys.{AreKeys};
ghost use Rattle.ded_complement.specs.Parts.{conjs_at, ArePlaces, IsSameOutside, IsPart};
ghost use Rattle.ded_complement.specs.Pieces.{IsAlike};

use crate::boxed::{Boxed, with_box};
use crate::keys::{Keys, fixing};
use crate::shortening::shortened;
use ded_box::meets;
use ded_genrel::copy_conj;
use ded_model::memory::NoMemory;
use ded_model::slot::Slot;
use ded_theory::Theory;
use std::alloc::Global;

/// A piece in its box, and the places of those conjunctions of a list whose boxes share values with it.
#[derive(Drop)]
pub(crate) struct BoxedPiece<A> {
    pub(crate) piece: Boxed<A>,
    pub(crate) near: Vec<usize>,
}

/// Two parts of a part.
#[derive(Drop)]
pub(crate) struct Halves<A> {
    pub(crate) first: BoxedPiece<A>,
    pub(crate) second: BoxedPiece<A>,
}

impl<A> Halves<A> {
    /// How many conjunctions are near the half to which more are near.
    pub(crate) fn most(&self) -> usize {
        self.first.near.len().max(self.second.near.len())
    }
}

/// The piece, with what is near it. Where it fixes the slot of the keys, that is nothing with another text.
///
/// # Errors
/// Out of memory.
pub(crate) fn whole<T: Theory>(
    piece: Vec<T::Atom>,
    taken: &[Boxed<T::Atom>],
    slots: &[Slot],
    keys: &Option<Keys<'_, T::Atom>>,
) -> Result<BoxedPiece<T::Atom>, NoMemory>
    requires normal { AllByRecursion T.normal piece.items }
    requires rational { AreRational slots.now }
    requires boxed { AreBoxed T.holds T.normal slots.now taken.now }
    requires keys { IfSome keys.now (λ k. AreKeys T.holds taken.now (conjs_in taken.now) k) }
    ensures same { IfOk result (λ r. r.piece.conj.items ≡ piece.items) }
    ensures part { IfOk result (λ r. IsPart T.holds T.normal slots.now taken.now r) }
{
    let places = places_of::<T>(&piece, taken, keys)?;
    part_of::<T>(piece, taken, &places, slots)
}

/// The places of the list, in order, without those of conjunctions with another text than the piece.
fn places_of<T: Theory>(
    piece: &Vec<T::Atom>,
    taken: &[Boxed<T::Atom>],
    keys: &Option<Keys<'_, T::Atom>>,
) -> Result<Vec<usize>, NoMemory>
    requires keys { IfSome keys.now (λ k. AreKeys T.holds taken.now (conjs_in taken.now) k) }
    ensures places { IfOk result (λ v. ArePlaces taken.now v.items) }
    ensures near { IfOk result (λ v. IsSameOutside T.holds piece.now.items (conjs_in taken.now)
        (conjs_at taken.now v.items)) }
{
    let alloc = *piece.allocator();
    if let Some(keys) = keys {
        if let Some((_, text)) = fixing::<T>(piece, keys.slot) {
            return keys.places(alloc, text);
        }
    }
    all_places(alloc, taken)
}

/// What of the part satisfies the atom too, with what of it is near.
///
/// # Errors
/// Out of memory.
pub(crate) fn half<T: Theory>(
    part: &BoxedPiece<T::Atom>,
    atom: T::Atom,
    taken: &[Boxed<T::Atom>],
    slots: &[Slot],
) -> Result<BoxedPiece<T::Atom>, NoMemory>
    requires normal { T.normal atom }
    requires rational { AreRational slots.now }
    requires boxed { AreBoxed T.holds T.normal slots.now taken.now }
    requires part { IsPart T.holds T.normal slots.now taken.now part.now }
    ensures alike { IfOk result (λ r. IsAlike T.holds (part.now.piece.conj.items ++ atom ∷ []) r.piece.conj.items) }
    ensures part { IfOk result (λ r. IsPart T.holds T.normal slots.now taken.now r) }
{
    let alloc = *part.near.allocator();
    let piece = shortened::<T>(copy_conj::<T>(alloc, &part.piece.conj)?, atom)?;
    part_of::<T>(piece, taken, &part.near, slots)
}

/// The piece, with what of those at the places is near it.
///
/// # Errors
/// Out of memory.
pub(crate) fn part_of<T: Theory>(
    piece: Vec<T::Atom>,
    taken: &[Boxed<T::Atom>],
    places: &[usize],
    slots: &[Slot],
) -> Result<BoxedPiece<T::Atom>, NoMemory>
    requires normal { AllByRecursion T.normal piece.items }
    requires rational { AreRational slots.now }
    requires boxed { AreBoxed T.holds T.normal slots.now taken.now }
    requires places { ArePlaces taken.now places.now }
    ensures same { IfOk result (λ r. r.piece.conj.items ≡ piece.items) }
    ensures boxed { IfOk result (λ r. IsBoxed T.holds T.normal slots.now r.piece) }
    ensures places { IfOk result (λ r. ArePlaces taken.now r.near.items) }
    ensures near { IfOk result (λ r. IsSameOutside T.holds piece.items (conjs_at taken.now places.now)
        (conjs_at taken.now r.near.items)) }
{
    let alloc = *piece.allocator();
    let piece = with_box::<T>(alloc, piece, slots)?;
    let near = near_places::<T>(alloc, &piece, taken, places)?;
    Ok(BoxedPiece { piece, near })
}

/// The places of the list, in order.
///
/// # Errors
/// Out of memory.
pub(crate) fn all_places<A>(alloc: Global, taken: &[Boxed<A>]) -> Result<Vec<usize>, NoMemory>
    ensures places { IfOk result (λ v. ArePlaces taken.now v.items) }
    ensures all { IfOk result (λ v. conjs_at taken.now v.items ≡ conjs_in taken.now) }
{
    let mut places = Vec::with_capacity(alloc, taken.len())?;
    for place in 0..taken.len() {
        places.push(place)?;
    }
    Ok(places)
}

/// Those of the places at which boxes share values with that of the piece, in order.
fn near_places<T: Theory>(
    alloc: Global,
    piece: &Boxed<T::Atom>,
    taken: &[Boxed<T::Atom>],
    places: &[usize],
) -> Result<Vec<usize>, NoMemory>
    requires { ArePlaces taken.now places.now }
    ensures places { IfOk result (λ v. ArePlaces taken.now v.items) }
    ensures near { IfOk result (λ v. (ss : List Slot) → IsBoxed T.holds T.normal ss piece.now
        → AreBoxed T.holds T.normal ss taken.now
        → IsSameOutside T.holds piece.now.conj.items (conjs_at taken.now places.now) (conjs_at taken.now v.items)) }
{
    let mut near = Vec::new(alloc);
    for place in places {
        if meets(&piece.bounds, &taken[*place].bounds) {
            near.push(*place)?;
        }
    }
    Ok(near)
}
