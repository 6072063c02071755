//! Conjunctions of a list by the texts to which they fix a slot.
//!
//! Conjunctions that fix a slot to different texts hold nowhere together. So where most of a list fix one slot, a
//! conjunction that fixes it, too, is paired only with those of its own text and those that aren't seen to fix it.
ghost use Rattle.std.specs.Prelude.{◌≡◌, ◌<◌, ◌≤◌, ◌^◌, ◌⊎◌, true, false, length, Some, IfOk, IfSome};
ghost use Rattle.std.specs.Prelude.{filter, nat_eq, nat_lt, nat_le};
ghost use Rattle.std.specs.List.Sorted.{IsNonDecreasingBy, IsPartitionPoint};
ghost use Rattle.std.specs.Ordering.{nat_cmp};
ghost use Rattle.std.specs.Cmp.Lexicographic.{slice_cmp};
ghost use Rattle.ded_complement.specs.Keys.{rank, AreInOrder};
ghost use Rattle.ded_join.specs.Texts.{AreSorted, AreTexts, places_with};

use crate::indexing::TOO_MANY;
use ded_complement::fixing;
use ded_genrel::GenRel;
use ded_model::memory::NoMemory;
use ded_model::name::Name;
use ded_model::slot::{Slot, stands_in};
use ded_theory::Theory;
use std::alloc::Global;
use std::cmp::Ordering;

/// From how many conjunctions on, of both lists, the second list is sorted by texts, as fewer aren't worth it. The
/// slots that the first so many of it fix are tried, and no more.
const SORTED_FROM: usize = 8;

/// A slot tells conjunctions apart where they fix it to so many texts or more.
const TEXTS_FROM: usize = 4;

/// The place of a conjunction, and the text to which it fixes a slot.
#[derive(Drop)]
pub(crate) struct TextPlace<'a> {
    pub(crate) text: &'a Name,
    pub(crate) place: u32,
}

/// The places of conjunctions that fix a slot, in the order of the texts, and of those that aren't seen to fix it.
#[derive(Drop)]
pub(crate) struct Texts<'a> {
    pub(crate) slot: Slot,
    pub(crate) placed: Vec<TextPlace<'a>>,
    pub(crate) others: Vec<u32>,
}

/// The conjunctions of the second list by the texts to which they fix the slot that tells most of them apart. None
/// where no slot does so for most of them, where one of the lists is short, or where the second one has 2^32
/// conjunctions or more.
///
/// # Errors
/// Out of memory.
pub(crate) fn texts_over<'a, T: Theory>(
    alloc: Global,
    first: &GenRel<T>,
    second: &'a GenRel<T>,
) -> Result<Option<Texts<'a>>, NoMemory>
    ensures { IfOk result (λ o. IfSome o (λ k. AreTexts T.holds second.now k)) }
{
    let conjs = second.list();
    if first.list().len() < SORTED_FROM || conjs.len() < SORTED_FROM || conjs.len() >= TOO_MANY {
        return Ok(None);
    }
    let mut best = None;
    for slot in &fixed_slots::<T>(alloc, &conjs[..SORTED_FROM])? {
        best = better(best, texts_at(alloc, second, *slot)?);
    }
    Ok(best)
}

/// The slots that the conjunctions fix, each once.
fn fixed_slots<T: Theory>(alloc: Global, conjs: &[Vec<T::Atom>]) -> Result<Vec<Slot>, NoMemory> {
    let mut slots = Vec::new(alloc);
    for conj in conjs {
        for atom in conj {
            if let Some((slot, _)) = T::fixes(atom) {
                if !stands_in(&slots, slot) {
                    slots.push(slot)?;
                }
            }
        }
    }
    Ok(slots)
}

/// The conjunctions of the list by the texts to which they fix the slot.
fn texts_at<'a, T: Theory>(
    alloc: Global,
    list: &'a GenRel<T>,
    slot: Slot,
) -> Result<Texts<'a>, NoMemory>
    requires { length list.now < 2 ^ 32 }
    ensures { IfOk result (λ k. AreTexts T.holds list.now k) }
{
    let conjs = list.list();
    let mut placed = Vec::with_capacity(alloc, conjs.len())?;
    let mut others = Vec::new(alloc);
    for place in 0..conjs.len() {
        match fixing::<T>(&conjs[place], slot) {
            Some((_, text)) => placed.push(TextPlace {
                text,
                place: place as u32,
            })?,
            None => others.push(place as u32)?,
        }
    }
    placed.sort_unstable_by(|a, b| order(a.text, b.text));
    Ok(Texts {
        slot,
        placed,
        others,
    })
}

/// Those texts that tell more conjunctions apart; none that don't tell most of theirs apart.
fn better<'a>(best: Option<Texts<'a>>, texts: Texts<'a>) -> Option<Texts<'a>>
    ensures { (result ≡ best.entry) ⊎ (result ≡ Some texts.entry) }
{
    let most = match &best {
        Some(best) => best.count(),
        None => 0,
    };
    if texts.tell_apart() && texts.count() > most {
        Some(texts)
    } else {
        best
    }
}

/// The order of two texts by their bytes.
fn order(one: &Name, other: &Name) -> Ordering
    ensures { result ≡ slice_cmp nat_cmp one.now other.now }
{
    one.bytes.as_slice().cmp(other.bytes.as_slice())
}

/// Whether the one text comes before the other.
fn is_before(one: &Name, other: &Name) -> bool
    ensures { result ≡ nat_lt (rank one.now other.now) 1 }
{
    order(one, other) == Ordering::Less
}

/// Whether the one text comes before the other or is the same.
fn is_up_to(one: &Name, other: &Name) -> bool
    ensures { result ≡ nat_le (rank one.now other.now) 1 }
{
    order(one, other) != Ordering::Greater
}

/// Those of the places, in the order of their texts, that are of the text.
fn of_text<'a, 'b>(placed: &'b [TextPlace<'a>], text: &Name) -> &'b [TextPlace<'a>]
    requires { AreSorted placed.now }
    ensures { result.now ≡ filter (λ e. nat_eq (rank e.text.now text.now) 1) placed.now }
{
    let rest = &placed[count_before(placed, text)..];
    &rest[..count_up_to(rest, text)]
}

/// How many of the places, in the order of their texts, come before the text.
fn count_before(placed: &[TextPlace<'_>], text: &Name) -> usize
    requires { IsNonDecreasingBy (λ e. rank e.text.now text.now) placed.now }
    ensures bound { result ≤ length placed.now }
    ensures point { IsPartitionPoint (λ e. nat_lt (rank e.text.now text.now) 1 ≡ true)
        (λ e. nat_lt (rank e.text.now text.now) 1 ≡ false) placed.now result }
{
    placed.partition_point(|entry| is_before(entry.text, text))
}

/// How many of the places, in the order of their texts, come before the text or are of it.
fn count_up_to(placed: &[TextPlace<'_>], text: &Name) -> usize
    requires { IsNonDecreasingBy (λ e. rank e.text.now text.now) placed.now }
    ensures bound { result ≤ length placed.now }
    ensures point { IsPartitionPoint (λ e. nat_le (rank e.text.now text.now) 1 ≡ true)
        (λ e. nat_le (rank e.text.now text.now) 1 ≡ false) placed.now result }
{
    placed.partition_point(|entry| is_up_to(entry.text, text))
}

impl Texts<'_> {
    /// How many texts there are.
    fn count(&self) -> usize {
        let mut count = 0_usize;
        for index in 0..self.placed.len() {
            if index == 0 || is_before(self.placed[index - 1].text, self.placed[index].text) {
                count = count.saturating_add(1);
            }
        }
        count
    }

    /// Whether most of the conjunctions fix the slot, and they do so to several texts.
    fn tell_apart(&self) -> bool {
        self.others.len() < self.placed.len() && self.count() >= TEXTS_FROM
    }

    /// The places of the conjunctions that fix the slot to the text, and of those that aren't seen to fix it, ascending
    /// and no others.
    ///
    /// # Errors
    /// Out of memory.
    pub(crate) fn places(&self, alloc: Global, text: &Name) -> Result<Vec<u32>, NoMemory>
        requires { AreSorted self.now.placed.items }
        ensures { IfOk result (λ v. AreInOrder (places_with text.now self.now) v.items) }
    {
        let mut places = Vec::new(alloc);
        for entry in of_text(&self.placed, text) {
            places.push(entry.place)?;
        }
        places.extend_from_slice(&self.others)?;
        places.sort_unstable();
        places.dedup();
        Ok(places)
    }
}
