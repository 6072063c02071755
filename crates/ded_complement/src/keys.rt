//! Conjunctions of a list by the texts to which they fix a slot.
//!
//! Conjunctions that fix a slot to different texts hold nowhere together. So where most of a list fix one slot, a
//! conjunction that fixes it, too, can share points only with those of its own text and those that don't fix it.
ghost use Rattle.std.specs.Prelude.{◌≡◌, ◌≤◌, ◌⊎◌, true, false, length, Some, IfOk, IfSome};
ghost use Rattle.std.specs.Prelude.{filter, nat_eq, nat_lt, nat_le};
ghost use Rattle.std.specs.List.Sorted.{IsNonDecreasingBy, IsPartitionPoint};
ghost use Rattle.std.specs.Ordering.{nat_cmp};
ghost use Rattle.std.specs.Cmp.Lexicographic.{slice_cmp};
ghost use Rattle.ded_complement.specs.Boxed.{conjs_in};
ghost use Rattle.ded_complement.specs.Parts.{conjs_at, ArePlaces};
ghost use Rattle.ded_complement.specs.Pieces.{IsAmong};
ghost use Rattle.ded_complement.specs.Keys.{rank, IsFixedBy, AreKeys, AreSorted, places_with, AreInOrder};

use crate::boxed::Boxed;
use crate::parts::all_places;
use ded_model::memory::NoMemory;
use ded_model::name::Name;
use ded_model::slot::{Slot, stands_in};
use ded_theory::Theory;
use std::alloc::Global;
use std::cmp::Ordering;

/// From how many conjunctions on a list is sorted by texts, as fewer aren't worth it. The slots that the first so many
/// fix are tried, and no more.
const KEYED_FROM: usize = 8;

/// A slot tells conjunctions apart where they fix it to so many texts or more.
const TEXTS_FROM: usize = 4;

/// The place of a conjunction, an atom of it that fixes a slot, and the text to which it does.
#[derive(Drop)]
pub struct KeyedPlace<'a, A> {
    pub(crate) text: &'a Name,
    pub(crate) atom: &'a A,
    pub(crate) place: usize,
}

/// The places of conjunctions that fix a slot, in the order of the texts, and of those that aren't seen to fix it.
#[derive(Drop)]
pub struct Keys<'a, A> {
    pub(crate) slot: Slot,
    pub(crate) keyed: Vec<KeyedPlace<'a, A>>,
    pub(crate) others: Vec<usize>,
}

/// An atom of the conjunction that fixes the slot, and the text to which it does. It does not allocate.
pub fn fixing<T: Theory>(conj: &[T::Atom], slot: Slot) -> Option<(&T::Atom, &Name)>
    ensures { IfSome result (λ f. IsAmong conj.now f.0.now × IsFixedBy T.holds slot f.0.now f.1.now) }
{
    for atom in conj {
        if let Some((other, text)) = T::fixes(atom) {
            if other.is_same(slot) {
                return Some((atom, text));
            }
        }
    }
    None
}

/// The conjunctions at the places by the texts to which they fix the slot.
///
/// # Errors
/// Out of memory.
pub(crate) fn keys_at<'a, T: Theory>(
    alloc: Global,
    taken: &'a [Boxed<T::Atom>],
    places: &[usize],
    slot: Slot,
) -> Result<Keys<'a, T::Atom>, NoMemory>
    requires { ArePlaces taken.now places.now }
    ensures { IfOk result (λ k. AreKeys T.holds taken.now (conjs_at taken.now places.now) k) }
{
    let mut keyed = Vec::with_capacity(alloc, places.len())?;
    let mut others = Vec::new(alloc);
    for place in places {
        match fixing::<T>(&taken[*place].conj, slot) {
            Some((atom, text)) => keyed.push(KeyedPlace {
                text,
                atom,
                place: *place,
            })?,
            None => others.push(*place)?,
        }
    }
    keyed.sort_unstable_by(|a, b| order(a.text, b.text));
    Ok(Keys {
        slot,
        keyed,
        others,
    })
}

/// The order of two texts by their bytes.
fn order(one: &Name, other: &Name) -> Ordering
    ensures { result ≡ slice_cmp nat_cmp one.now other.now }
{
    one.bytes.as_slice().cmp(other.bytes.as_slice())
}

/// Whether the one text comes before the other.
pub(crate) fn is_before(one: &Name, other: &Name) -> bool
    ensures { result ≡ nat_lt (rank one.now other.now) 1 }
{
    order(one, other) == Ordering::Less
}

/// Whether the one text comes before the other or is the same.
fn is_up_to(one: &Name, other: &Name) -> bool
    ensures { result ≡ nat_le (rank one.now other.now) 1 }
{
    order(one, other) != Ordering::Greater
}

/// The conjunctions of the list by the texts to which they fix the slot that tells most of them apart. None where no
/// slot does so for most of them.
///
/// # Errors
/// Out of memory.
pub fn keyed<'a, T: Theory>(
    alloc: Global,
    taken: &'a [Boxed<T::Atom>],
) -> Result<Option<Keys<'a, T::Atom>>, NoMemory>
    ensures { IfOk result (λ o. IfSome o (λ k. AreKeys T.holds taken.now (conjs_in taken.now) k)) }
{
    if taken.len() < KEYED_FROM {
        return Ok(None);
    }
    let places = all_places(alloc, taken)?;
    let mut best = None;
    for slot in &fixed_slots::<T>(alloc, &taken[..KEYED_FROM])? {
        best = better(best, keys_at::<T>(alloc, taken, &places, *slot)?);
    }
    Ok(best)
}

/// The slots that conjunctions of the list fix, each once.
fn fixed_slots<T: Theory>(alloc: Global, taken: &[Boxed<T::Atom>]) -> Result<Vec<Slot>, NoMemory> {
    let mut slots = Vec::new(alloc);
    for boxed in taken {
        for atom in &boxed.conj {
            if let Some((slot, _)) = T::fixes(atom) {
                if !stands_in(&slots, slot) {
                    slots.push(slot)?;
                }
            }
        }
    }
    Ok(slots)
}

/// Those keys that tell more conjunctions apart; none that don't tell most of theirs apart.
fn better<'a, A>(best: Option<Keys<'a, A>>, keys: Keys<'a, A>) -> Option<Keys<'a, A>>
    ensures { (result ≡ best.entry) ⊎ (result ≡ Some keys.entry) }
{
    let most = match &best {
        Some(best) => best.texts(),
        None => 0,
    };
    if keys.tell_apart() && keys.texts() > most {
        Some(keys)
    } else {
        best
    }
}

/// Those of the keyed places, in the order of their texts, that are of the text.
fn of_text<'a, 'b, A>(keyed: &'b [KeyedPlace<'a, A>], text: &Name) -> &'b [KeyedPlace<'a, A>]
    requires { AreSorted keyed.now }
    ensures { result.now ≡ filter (λ e. nat_eq (rank e.text.now text.now) 1) keyed.now }
{
    let rest = &keyed[count_before(keyed, text)..];
    &rest[..count_up_to(rest, text)]
}

/// How many of the keyed places, in the order of their texts, come before the text.
fn count_before<A>(keyed: &[KeyedPlace<'_, A>], text: &Name) -> usize
    requires { IsNonDecreasingBy (λ e. rank e.text.now text.now) keyed.now }
    ensures bound { result ≤ length keyed.now }
    ensures point { IsPartitionPoint (λ e. nat_lt (rank e.text.now text.now) 1 ≡ true)
        (λ e. nat_lt (rank e.text.now text.now) 1 ≡ false) keyed.now result }
{
    keyed.partition_point(|entry| is_before(entry.text, text))
}

/// How many of the keyed places, in the order of their texts, come before the text or are of it.
fn count_up_to<A>(keyed: &[KeyedPlace<'_, A>], text: &Name) -> usize
    requires { IsNonDecreasingBy (λ e. rank e.text.now text.now) keyed.now }
    ensures bound { result ≤ length keyed.now }
    ensures point { IsPartitionPoint (λ e. nat_le (rank e.text.now text.now) 1 ≡ true)
        (λ e. nat_le (rank e.text.now text.now) 1 ≡ false) keyed.now result }
{
    keyed.partition_point(|entry| is_up_to(entry.text, text))
}

/// The slot of the keys.
pub(crate) fn slot_of<A>(keys: &Option<Keys<'_, A>>) -> Option<Slot> {
    keys.as_ref().map(|keys| keys.slot)
}

impl<A> Keys<'_, A> {
    /// How many texts there are.
    fn texts(&self) -> usize {
        let mut count = 0_usize;
        for index in 0..self.keyed.len() {
            if index == 0 || is_before(self.keyed[index - 1].text, self.keyed[index].text) {
                count = count.saturating_add(1);
            }
        }
        count
    }

    /// Whether most of the conjunctions fix the slot, and they do so to several texts.
    pub(crate) fn tell_apart(&self) -> bool {
        self.others.len() < self.keyed.len() && self.texts() >= TEXTS_FROM
    }

    /// The places of the conjunctions that fix the slot to the text, and of those that don't fix it, ascending.
    ///
    /// # Errors
    /// Out of memory.
    pub fn places(&self, alloc: Global, text: &Name) -> Result<Vec<usize>, NoMemory>
        requires { AreSorted self.now.keyed.items }
        ensures { IfOk result (λ v. AreInOrder (places_with text.now self.now) v.items) }
    {
        let mut places = Vec::new(alloc);
        for keyed in of_text(&self.keyed, text) {
            places.push(keyed.place)?;
        }
        places.extend_from_slice(&self.others)?;
        places.sort_unstable();
        places.dedup();
        Ok(places)
    }
}
