//! Joins without pairs that no point satisfies.
ghost use Rattle.std.specs.Prelude.{◌<◌, ◌^◌, length, IfOk, IfSome};
ghost use Rattle.std.specs.List.{AllByRecursion};
ghost use Rattle.ded_model.specs.Cell.{conj_holds, HoldsSomewhere};
ghost use Rattle.ded_theory.specs.Conjunctions.{IsWide};
ghost use Rattle.ded_genrel.specs.Lists.{pairs, pairs_with};
ghost use Rattle.ded_genrel.specs.Operations.{IsMeet};
ghost use Rattle.ded_genrel.specs.Rounds.{AreRational};
ghost use Rattle.ded_join.specs.Near.{AreNearPairs};
ghost use Rattle.ded_join.specs.Kept.{AreKept, IsCount, IsKeptMeet};
ghost use Rattle.ded_join.specs.Picks.{IsIndexOver};
ghost use Rattle.ded_join.specs.Taken.{AreTakenAfter};
ghost use Rattle.ded_join.specs.Texts.{AreTexts};
ghost use Rattle.ded_join.specs.declared.near.Taken.TheVariants as taken_pairs;

use crate::indexing::{IndexedList, index_over};
use crate::near::{Taken, near_by, push_both, push_near};
use crate::texts::{Texts, texts_over};
use ded_complement::fixing;
use ded_genrel::GenRel;
use ded_index::BoxIndex;
use ded_model::memory::NoMemory;
use ded_model::slot::Slot;
use ded_theory::Theory;
use std::alloc::Global;

/// The join without pairs that no point satisfies: each that is kept is wide or holds somewhere. Where no slots are
/// given, or the second list has 2^32 conjunctions or more, it is `GenRel::meet` without these. It keeps no more in
/// memory than what is left, the places of the second list's conjunctions by their boxes or texts and, while it looks
/// at one conjunction of the first list, the places of those that are near. `met` grows by the count of pairs that are
/// met, those that are left out among them, up to the greatest `u64`.
///
/// # Errors
/// Out of memory.
pub fn join_inhabited<T: Theory>(
    alloc: Global,
    a: &GenRel<T>,
    b: &GenRel<T>,
    slots: &[Slot],
    met: &mut u64,
) -> Result<GenRel<T>, NoMemory>
    requires { AreRational slots.now }
    ensures is { IfOk result (λ r. IsMeet T.holds T.mentions T.lines a.now b.now r) }
    ensures near { IfOk result (λ r. 0 < length slots.now → length b.now < 2 ^ 32
        → AreNearPairs T.holds T.mentions T.lines slots.now a.now b.now r) }
    ensures inhabited { IfOk result (λ r. AllByRecursion (λ c. (IsWide T.mentions T.lines c → ⊥)
        → HoldsSomewhere (conj_holds T.holds c)) r) }
    ensures met { IfOk result (λ r. IsKeptMeet T.holds T.mentions T.lines slots.now a.now b.now r met.old met.new) }
{
    let index = index_over(alloc, b, slots)?;
    inhabited_over(alloc, a, b, slots, &index, met)
}

/// The list of [`join_inhabited`], by an index over the second list. `met` grows as there.
///
/// # Errors
/// Out of memory.
fn inhabited_over<T: Theory>(
    alloc: Global,
    a: &GenRel<T>,
    b: &GenRel<T>,
    slots: &[Slot],
    index: &Option<BoxIndex>,
    met: &mut u64,
) -> Result<GenRel<T>, NoMemory>
    requires rational { AreRational slots.now }
    requires index { IsIndexOver T.holds T.mentions T.lines slots.now b.now index.now }
    ensures is { IfOk result (λ r. IsMeet T.holds T.mentions T.lines a.now b.now r) }
    ensures near { IfOk result (λ r. 0 < length slots.now → length b.now < 2 ^ 32
        → AreNearPairs T.holds T.mentions T.lines slots.now a.now b.now r) }
    ensures inhabited { IfOk result (λ r. AllByRecursion (λ c. (IsWide T.mentions T.lines c → ⊥)
        → HoldsSomewhere (conj_holds T.holds c)) r) }
    ensures met { IfOk result (λ r. IsKeptMeet T.holds T.mentions T.lines slots.now a.now b.now r met.old met.new) }
{
    match index {
        Some(index) => {
            let list = IndexedList {
                list: b,
                slots,
                index,
            };
            near_by(alloc, a, &list, Taken::Inhabited, met)
        }
        None => meet_inhabited(alloc, a, b, met),
    }
}

/// The meet of the lists without pairs that no point satisfies. Where texts tell most of the second list's conjunctions
/// apart, pairs of different texts aren't looked at.
fn meet_inhabited<T: Theory>(
    alloc: Global,
    a: &GenRel<T>,
    b: &GenRel<T>,
    met: &mut u64,
) -> Result<GenRel<T>, NoMemory>
    ensures { IfOk result (λ r. AreKept T.holds T.mentions T.lines (pairs a.now b.now) r
        × IsCount (pairs a.now b.now) met.old met.new) }
{
    let texts = texts_over(alloc, a, b)?;
    let mut out = GenRel::new(alloc);
    let mut count = *met;
    for conj in a.list() {
        count = count.saturating_add(b.list().len() as u64);
        push_met(alloc, &mut out, conj, b, &texts)?;
    }
    *met = count;
    Ok(out)
}

/// Sets the conjunction together with each one of the list at the end, but for pairs that no point satisfies. The texts
/// are those of the list.
fn push_met<T: Theory>(
    alloc: Global,
    out: &mut GenRel<T>,
    conj: &[T::Atom],
    list: &GenRel<T>,
    texts: &Option<Texts<'_>>,
) -> Result<(), NoMemory>
    requires normal { AllByRecursion T.normal conj.now }
    requires texts { IfSome texts.now (λ k. AreTexts T.holds list.now k) }
    ensures { IfOk result (λ _. AreTakenAfter taken_pairs.Inhabited T.holds T.mentions T.lines
        (pairs_with conj.now list.now) out.old out.new) }
{
    if let Some(texts) = texts {
        if let Some((_, text)) = fixing::<T>(conj, texts.slot) {
            let places = texts.places(alloc, text)?;
            return push_near(alloc, out, conj, list, &places, Taken::Inhabited);
        }
    }
    push_all(alloc, out, conj, list)
}

/// The same, each pair looked at.
fn push_all<T: Theory>(
    alloc: Global,
    out: &mut GenRel<T>,
    conj: &[T::Atom],
    list: &GenRel<T>,
) -> Result<(), NoMemory>
    requires normal { AllByRecursion T.normal conj.now }
    ensures { IfOk result (λ _. AreTakenAfter taken_pairs.Inhabited T.holds T.mentions T.lines
        (pairs_with conj.now list.now) out.old out.new) }
{
    for more in list.list() {
        push_both(alloc, out, conj, more, Taken::Inhabited)?;
    }
    Ok(())
}
