//! Pieces outside of many conjunctions that texts tell apart.
//!
//! A piece that doesn't fix a slot which most of the conjunctions near it fix is cut by their texts. What of it has
//! such a text is a part of its own, near which are only the conjunctions with this text and those that don't fix the
//! slot. What is left has none of the texts, so that of the conjunctions only the others are near it.
ghost use Rattle.std.specs.Prelude.{◌≡◌, true, IfOk};
ghost use Rattle.ded_genrel.specs.Rounds.{AreRational};
ghost use Rattle.ded_complement.specs.Boxed.{AreBoxed};
ghost use Rattle.ded_complement.specs.Cuts.{IsNear, IsBehind, IsNew, IsCutOn, IsOwnCarved};
ghost use Rattle.ded_complement.specs.Keys.{IsKeyed, AreKeys};
ghost use Rattle.ded_complement.specs.Parts.{conjs_at, IsPart, AreCarved};

use crate::boxed::Boxed;
use crate::carving::{DEEPEST, carve, halves};
use crate::keys::{KeyedPlace, Keys, fixing, is_before, keys_at};
use crate::parts::{BoxedPiece, part_of};
use crate::shortening::shortened;
use ded_genrel::{GenRel, copy_conj};
use ded_model::memory::NoMemory;
use ded_model::slot::Slot;
use ded_model::tuple::Negated;
use ded_theory::Theory;
use std::alloc::Global;

/// From how many conjunctions near a part on it is cut by their texts, where boxes don't cut it in halves.
const CUT_BY_TEXTS_FROM: usize = 16;

/// A part that is cut, the list that is taken away from it, with the slots of its boxes, and the keys of what is near.
#[derive(Drop)]
pub(crate) struct Near<'a, 'b, A> {
    pub(crate) part: &'a BoxedPiece<A>,
    pub(crate) taken: &'b [Boxed<A>],
    pub(crate) slots: &'b [Slot],
    pub(crate) keys: &'a Keys<'b, A>,
}

/// What is left of a piece that is cut by texts, the last keyed place whose atom it was cut by, and the places of the
/// conjunctions so far that may be near what is left.
#[derive(Drop)]
pub(crate) struct Cut<'a, 'b, A> {
    pub(crate) rest: Vec<A>,
    pub(crate) last: Option<&'a KeyedPlace<'b, A>>,
    pub(crate) left: Vec<usize>,
}

/// Sets pieces of what satisfies the part's piece and is outside of the list at the end, as [`carve`] does. A part that
/// boxes don't cut in halves is cut by texts at the slot, where these tell apart most of what is near it.
///
/// # Errors
/// Out of memory.
pub(crate) fn carve_apart<T: Theory>(
    out: &mut GenRel<T>,
    part: BoxedPiece<T::Atom>,
    taken: &[Boxed<T::Atom>],
    slots: &[Slot],
    slot: Option<Slot>,
) -> Result<(), NoMemory>
    requires rational { AreRational slots.now }
    requires boxed { AreBoxed T.holds T.normal slots.now taken.now }
    requires part { IsPart T.holds T.normal slots.now taken.now part }
    ensures { IfOk result (λ _. AreCarved T.holds T.mentions T.lines T.cell taken.now
        part.piece.conj.items out.old out.new) }
{
    if let Some(slot) = slot {
        if is_cut::<T>(&part, taken, slots, slot)? {
            return carve_at::<T>(out, part, taken, slots, slot);
        }
    }
    carve::<T>(out, part, taken, slots, DEEPEST)
}

/// Whether the part is to be cut by texts at the slot: much is near it, boxes don't cut it in halves, and it doesn't
/// fix the slot.
fn is_cut<T: Theory>(
    part: &BoxedPiece<T::Atom>,
    taken: &[Boxed<T::Atom>],
    slots: &[Slot],
    slot: Slot,
) -> Result<bool, NoMemory>
    requires rational { AreRational slots.now }
    requires boxed { AreBoxed T.holds T.normal slots.now taken.now }
    requires part { IsPart T.holds T.normal slots.now taken.now part.now }
{
    if part.near.len() < CUT_BY_TEXTS_FROM || fixing::<T>(&part.piece.conj, slot).is_some() {
        return Ok(false);
    }
    Ok(halves::<T>(part, taken, slots)?.is_none())
}

/// The same by the texts at the slot, where these tell apart most of what is near the part.
fn carve_at<'b, T: Theory>(
    out: &mut GenRel<T>,
    part: BoxedPiece<T::Atom>,
    taken: &'b [Boxed<T::Atom>],
    slots: &'b [Slot],
    slot: Slot,
) -> Result<(), NoMemory>
    requires rational { AreRational slots.now }
    requires boxed { AreBoxed T.holds T.normal slots.now taken.now }
    requires part { IsPart T.holds T.normal slots.now taken.now part }
    ensures { IfOk result (λ _. AreCarved T.holds T.mentions T.lines T.cell taken.now
        part.piece.conj.items out.old out.new) }
{
    let alloc = *part.near.allocator();
    let keys = keys_at::<T>(alloc, taken, &part.near, slot)?;
    if keys.tell_apart() {
        carve_with::<T>(out, &part, taken, slots, &keys)
    } else {
        carve::<T>(out, part, taken, slots, DEEPEST)
    }
}

/// The same, cut by the texts of the keys.
fn carve_with<'a, 'b, T: Theory>(
    out: &mut GenRel<T>,
    part: &'a BoxedPiece<T::Atom>,
    taken: &'b [Boxed<T::Atom>],
    slots: &'b [Slot],
    keys: &'a Keys<'b, T::Atom>,
) -> Result<(), NoMemory>
    requires rational { AreRational slots.now }
    requires boxed { AreBoxed T.holds T.normal slots.now taken.now }
    requires part { IsPart T.holds T.normal slots.now taken.now part.now }
    requires keys { AreKeys T.holds taken.now (conjs_at taken.now part.now.near.items) keys.now }
    ensures { IfOk result (λ _. AreCarved T.holds T.mentions T.lines T.cell taken.now
        part.now.piece.conj.items out.old out.new) }
{
    let near = Near {
        part,
        taken,
        slots,
        keys,
    };
    carve_by_texts::<T>(out, &near)
}

/// Sets pieces of what satisfies the piece of the part and is outside of the list at the end, cut by the texts of the
/// keys.
fn carve_by_texts<T: Theory>(
    out: &mut GenRel<T>,
    near: &Near<'_, '_, T::Atom>,
) -> Result<(), NoMemory>
    requires { IsNear T.holds T.normal near.now }
    ensures { IfOk result (λ _. AreCarved T.holds T.mentions T.lines T.cell near.now.taken.now
        near.now.part.now.piece.conj.items out.old out.new) }
{
    let alloc = *near.part.near.allocator();
    let mut cut = Cut {
        rest: copy_conj::<T>(alloc, &near.part.piece.conj)?,
        last: None,
        left: Vec::new(alloc),
    };
    for keyed in &near.keys.keyed {
        cut_at::<T>(out, &mut cut, near, keyed)?;
    }
    let Cut { rest, mut left, .. } = cut;
    left.extend_from_slice(&near.keys.others)?;
    let part = part_of::<T>(rest, near.taken, &left, near.slots)?;
    carve::<T>(out, part, near.taken, near.slots, DEEPEST)
}

/// Cuts what is left by the atom of the keyed place, if its text comes after that of the last one. What has this text
/// is carved. Else, unless its conjunction holds only where the last atom does, the place stays.
fn cut_at<'a, 'b, T: Theory>(
    out: &mut GenRel<T>,
    cut: &mut Cut<'a, 'b, T::Atom>,
    near: &Near<'a, 'b, T::Atom>,
    keyed: &'a KeyedPlace<'b, T::Atom>,
) -> Result<(), NoMemory>
    requires near { IsNear T.holds T.normal near.now }
    requires keyed { IsKeyed T.holds near.now.keys.now.slot near.now.taken.now keyed.now }
    ensures { IfOk result (λ _. IsCutOn T.holds T.mentions T.lines T.cell T.normal near.now keyed.now
        out.old cut.old out.new cut.new) }
{
    if is_behind::<T>(cut, keyed) {
        return Ok(());
    }
    if !is_new(cut, keyed) {
        cut.left.push(keyed.place)?;
        return Ok(());
    }
    match T::negate(keyed.atom)? {
        Negated::One(negation) => {
            cut.rest.push(negation)?;
            cut.last = Some(keyed);
            carve_own::<T>(out, near, keyed)
        }
        Negated::Two(_, _) => {
            cut.left.push(keyed.place)?;
            Ok(())
        }
    }
}

/// Whether the atom of the keyed place plainly holds only where that of the last one does.
fn is_behind<T: Theory>(cut: &Cut<'_, '_, T::Atom>, keyed: &KeyedPlace<'_, T::Atom>) -> bool
    ensures { result ≡ true → IsBehind T.holds cut.now.last keyed.now }
{
    match cut.last {
        None => false,
        Some(last) => T::implies(keyed.atom, last.atom),
    }
}

/// Whether the text of the keyed place comes after that of the last one.
fn is_new<A>(cut: &Cut<'_, '_, A>, keyed: &KeyedPlace<'_, A>) -> bool
    ensures { result ≡ true → IsNew cut.now.last keyed.now }
{
    match cut.last {
        None => true,
        Some(last) => is_before(last.text, keyed.text),
    }
}

/// Sets pieces of what of the part satisfies the atom of the keyed place, too, and is outside of the list at the end.
fn carve_own<T: Theory>(
    out: &mut GenRel<T>,
    near: &Near<'_, '_, T::Atom>,
    keyed: &KeyedPlace<'_, T::Atom>,
) -> Result<(), NoMemory>
    requires near { IsNear T.holds T.normal near.now }
    requires keyed { IsKeyed T.holds near.now.keys.now.slot near.now.taken.now keyed.now }
    ensures { IfOk result (λ _. IsOwnCarved T.holds T.mentions T.lines T.cell near.now keyed.now out.old out.new) }
{
    let alloc = *near.part.near.allocator();
    let piece = copy_conj::<T>(alloc, &near.part.piece.conj)?;
    let own = shortened::<T>(piece, T::copy(keyed.atom)?)?;
    let places = near.keys.places(alloc, keyed.text)?;
    let part = part_of::<T>(own, near.taken, &places, near.slots)?;
    carve::<T>(out, part, near.taken, near.slots, DEEPEST)
}
