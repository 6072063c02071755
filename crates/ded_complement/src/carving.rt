//! Pieces outside of many conjunctions, by halves.
ghost use Rattle.std.specs.Prelude.{◌≡◌, ◌⊎◌, ◌<◌, List, [], length, IfOk, IfSome};
ghost use Rattle.std.specs.List.{AllByRecursion};
ghost use Rattle.ded_model.specs.declared.slot.Slot.{Slot};
ghost use Rattle.ded_model.specs.Cell.{conj_holds};
ghost use Rattle.ded_genrel.specs.Rounds.{AreRational};
ghost use Rattle.ded_complement.specs.Boxed.{conjs_in, IsBoxed, AreBoxed};
ghost use Rattle.ded_complement.specs.Parts.{IsPart, AreHalves, AreCarved};
ghost use Rattle.ded_complement.specs.Pieces.{all_atoms, IsAmong, IsMadeOf, IsMore};

use crate::boxed::{Boxed, unboxed};
use crate::lessening::without;
use crate::parts::{BoxedPiece, Halves, half};
use crate::splitting::splitter;
use ded_genrel::GenRel;
use ded_model::memory::NoMemory;
use ded_model::slot::Slot;
use ded_model::tuple::Negated;
use ded_theory::{Theory, Verdict};
use std::alloc::Global;

/// Above how many conjunctions near a part it is cut in halves, so that each is carved by those near it alone: so many
/// or fewer are taken away one after another, without a look for halves.
const CUT_IN_HALVES_ABOVE: usize = 6;

/// How often a part is cut in two, then a half of it, and so on, at most.
pub(crate) const DEEPEST: usize = 64;

/// Sets pieces of what satisfies the part's piece and is outside of the list at the end. Where many conjunctions are
/// near, each half is carved by those near it.
///
/// # Errors
/// Out of memory.
pub(crate) fn carve<T: Theory>(
    out: &mut GenRel<T>,
    part: BoxedPiece<T::Atom>,
    taken: &[Boxed<T::Atom>],
    slots: &[Slot],
    depth: usize,
) -> Result<(), NoMemory>
    requires rational { AreRational slots.now }
    requires boxed { AreBoxed T.holds T.normal slots.now taken.now }
    requires part { IsPart T.holds T.normal slots.now taken.now part }
    ensures { IfOk result (λ _. AreCarved T.holds T.mentions T.lines T.cell taken.now
        part.piece.conj.items out.old out.new) }
{
    if depth == 0 || part.near.len() <= CUT_IN_HALVES_ABOVE {
        return carve_in_turn::<T>(out, part, taken, slots);
    }
    match halves::<T>(&part, taken, slots)? {
        None => carve_in_turn::<T>(out, part, taken, slots),
        Some(Halves { first, second }) => {
            carve::<T>(out, first, taken, slots, depth - 1)?;
            carve::<T>(out, second, taken, slots, depth - 1)
        }
    }
}

/// Sets pieces of what satisfies the part's piece and is outside of the list at the end: what is near is taken away
/// from the pieces that are left, one after another.
fn carve_in_turn<T: Theory>(
    out: &mut GenRel<T>,
    part: BoxedPiece<T::Atom>,
    taken: &[Boxed<T::Atom>],
    slots: &[Slot],
) -> Result<(), NoMemory>
    requires rational { AreRational slots.now }
    requires boxed { AreBoxed T.holds T.normal slots.now taken.now }
    requires part { IsPart T.holds T.normal slots.now taken.now part }
    ensures { IfOk result (λ _. AreCarved T.holds T.mentions T.lines T.cell taken.now
        part.piece.conj.items out.old out.new) }
{
    let BoxedPiece { piece, near } = part;
    let alloc = *near.allocator();
    let mut pieces = inhabited::<T>(alloc, piece)?;
    for place in &near {
        pieces = without::<T>(alloc, pieces, &taken[*place], slots)?;
    }
    out.append(unboxed::<T>(alloc, pieces)?)
}

/// The piece alone, or none where it is plain that it holds nowhere.
fn inhabited<T: Theory>(
    alloc: Global,
    piece: Boxed<T::Atom>,
) -> Result<Vec<Boxed<T::Atom>>, NoMemory>
    requires { AllByRecursion T.normal piece.conj.items }
    ensures more { IfOk result (λ v. IsMore T.holds T.mentions T.lines T.cell
        (λ atoms. IsMadeOf T.mentions T.lines T.cell atoms piece.conj.items) (conj_holds T.holds piece.conj.items)
        [] (conjs_in v.items)) }
    ensures boxed { IfOk result (λ v. (ss : List Slot) → IsBoxed T.holds T.normal ss piece
        → AreBoxed T.holds T.normal ss v.items) }
{
    match T::refute(alloc, &piece.conj)? {
        Verdict::Empty => Ok(Vec::new(alloc)),
        _ => {
            let mut pieces = Vec::new(alloc);
            pieces.push(piece)?;
            Ok(pieces)
        }
    }
}

/// The halves of the part of which the larger one has the fewest near it, over all slots; none where each cut leaves
/// more than three quarters near one half.
///
/// # Errors
/// Out of memory.
pub(crate) fn halves<T: Theory>(
    part: &BoxedPiece<T::Atom>,
    taken: &[Boxed<T::Atom>],
    slots: &[Slot],
) -> Result<Option<Halves<T::Atom>>, NoMemory>
    requires rational { AreRational slots.now }
    requires boxed { AreBoxed T.holds T.normal slots.now taken.now }
    requires part { IsPart T.holds T.normal slots.now taken.now part.now }
    requires some { 0 < length part.now.near.items }
    ensures { IfOk result
        (λ o. IfSome o (λ r. AreHalves T.holds T.mentions T.lines T.cell T.normal slots.now taken.now
        part.now.piece.conj.items r)) }
{
    let mut best = None;
    for column in 0..slots.len() {
        best = better::<T::Atom>(best, halves_at::<T>(part, taken, slots, column)?);
    }
    Ok(best)
}

/// Those halves of which the larger one has the fewest near it.
fn better<A: Drop>(one: Option<Halves<A>>, other: Option<Halves<A>>) -> Option<Halves<A>>
    ensures { (result ≡ one) ⊎ (result ≡ other) }
{
    match (one, other) {
        (None, other) => other,
        (one, None) => one,
        (Some(one), Some(other)) => {
            if one.most() <= other.most() {
                Some(one)
            } else {
                Some(other)
            }
        }
    }
}

/// The halves of the part at an atom that bounds the slot of the column; none where there is no such atom.
fn halves_at<T: Theory>(
    part: &BoxedPiece<T::Atom>,
    taken: &[Boxed<T::Atom>],
    slots: &[Slot],
    column: usize,
) -> Result<Option<Halves<T::Atom>>, NoMemory>
    requires rational { AreRational slots.now }
    requires boxed { AreBoxed T.holds T.normal slots.now taken.now }
    requires part { IsPart T.holds T.normal slots.now taken.now part.now }
    requires some { 0 < length part.now.near.items }
    requires column { column < length slots.now }
    ensures { IfOk result
        (λ o. IfSome o (λ r. AreHalves T.holds T.mentions T.lines T.cell T.normal slots.now taken.now
        part.now.piece.conj.items r)) }
{
    match splitter::<T>(&part.near, taken, slots, column)? {
        None => Ok(None),
        Some(atom) => halves_by::<T>(part, atom, taken, slots),
    }
}

/// What of the part doesn't satisfy the atom, and what does; none where the negation has two pieces or the cut leaves
/// more than three quarters near one half.
fn halves_by<T: Theory>(
    part: &BoxedPiece<T::Atom>,
    atom: T::Atom,
    taken: &[Boxed<T::Atom>],
    slots: &[Slot],
) -> Result<Option<Halves<T::Atom>>, NoMemory>
    requires normal { T.normal atom }
    requires among { IsAmong (all_atoms (conjs_in taken.now)) atom }
    requires rational { AreRational slots.now }
    requires boxed { AreBoxed T.holds T.normal slots.now taken.now }
    requires part { IsPart T.holds T.normal slots.now taken.now part.now }
    ensures { IfOk result
        (λ o. IfSome o (λ r. AreHalves T.holds T.mentions T.lines T.cell T.normal slots.now taken.now
        part.now.piece.conj.items r)) }
{
    match T::negate(&atom)? {
        Negated::One(negation) => {
            let first = half::<T>(part, negation, taken, slots)?;
            let second = half::<T>(part, atom, taken, slots)?;
            let halves = Halves { first, second };
            let near = part.near.len();
            if halves.most() <= near - near / 4 {
                Ok(Some(halves))
            } else {
                Ok(None)
            }
        }
        Negated::Two(_, _) => Ok(None),
    }
}
