//! Pairs of conjunctions that are near, through an index over the second list.
ghost use Rattle.std.specs.Prelude.{◌<◌, ◌++◌, ◌∷◌, [], length, IfOk};
ghost use Rattle.std.specs.List.{AllByRecursion};
ghost use Rattle.ded_genrel.specs.Rounds.{AreRational};
ghost use Rattle.ded_join.specs.Picks.{picked, IsIndexOf};
ghost use Rattle.ded_join.specs.Taken.{AreTakenAfter, IsTakenMeet};
ghost use Rattle.ded_join.specs.declared.near.Taken.TheVariants as taken_pairs;

use crate::indexing::IndexedList;
use ded_genrel::{GenRel, both_conjs, box_round};
use ded_model::memory::NoMemory;
use ded_theory::{Theory, Verdict};
use std::alloc::Global;

/// Which pairs are taken.
#[derive(Clone, Copy)]
pub(crate) enum Taken {
    All,
    /// Those that aren't found to hold nowhere.
    Inhabited,
}

/// What is taken of the pairs of conjunctions that are near, in the order of `GenRel::meet`. `met` grows by the count
/// of pairs that are near, up to the greatest `u64`.
///
/// # Errors
/// Out of memory.
pub(crate) fn near_by<T: Theory>(
    alloc: Global,
    a: &GenRel<T>,
    b: &IndexedList<'_, T>,
    taken: Taken,
    met: &mut u64,
) -> Result<GenRel<T>, NoMemory>
    requires some { 0 < length b.now.slots.now }
    requires rational { AreRational b.now.slots.now }
    requires index { IsIndexOf T.holds T.mentions T.lines b.now.slots.now b.now.list.now b.now.index.now }
    ensures { IfOk result (λ r. IsTakenMeet taken T.holds T.mentions T.lines b.now.slots.now a.now
        b.now.list.now r met.old met.new) }
{
    let mut out = GenRel::new(alloc);
    let mut count = *met;
    for conj in a.list() {
        let near = b.index.find(alloc, &box_round::<T>(alloc, conj, b.slots)?)?;
        count = count.saturating_add(near.len() as u64);
        push_near(alloc, &mut out, conj, b.list, &near, taken)?;
    }
    *met = count;
    Ok(out)
}

/// Sets what is taken of the pairs of the conjunction with those that stand at the places in the list at the end.
pub(crate) fn push_near<T: Theory>(
    alloc: Global,
    out: &mut GenRel<T>,
    conj: &[T::Atom],
    list: &GenRel<T>,
    places: &[u32],
    taken: Taken,
) -> Result<(), NoMemory>
    requires normal { AllByRecursion T.normal conj.now }
    requires places { AllByRecursion (λ j. j < length list.now) places.now }
    ensures { IfOk result (λ _. AreTakenAfter taken T.holds T.mentions T.lines
        (picked conj.now list.now places.now) out.old out.new) }
{
    let conjs = list.list();
    for place in places {
        push_both(alloc, out, conj, &conjs[*place as usize], taken)?;
    }
    Ok(())
}

/// Sets the two conjunctions together at the end, where the pair is taken.
pub(crate) fn push_both<T: Theory>(
    alloc: Global,
    out: &mut GenRel<T>,
    first: &[T::Atom],
    second: &[T::Atom],
    taken: Taken,
) -> Result<(), NoMemory>
    requires first { AllByRecursion T.normal first.now }
    requires second { AllByRecursion T.normal second.now }
    ensures { IfOk result (λ _. AreTakenAfter taken T.holds T.mentions T.lines
        ((first.now ++ second.now) ∷ []) out.old out.new) }
{
    let both = both_conjs::<T>(alloc, first, second)?;
    match taken {
        Taken::All => out.push(both),
        Taken::Inhabited => push_inhabited(alloc, out, both),
    }
}

/// Sets the conjunction at the end, unless no point satisfies it.
fn push_inhabited<T: Theory>(
    alloc: Global,
    out: &mut GenRel<T>,
    conj: Vec<T::Atom>,
) -> Result<(), NoMemory>
    requires normal { AllByRecursion T.normal conj.items }
    ensures { IfOk result (λ _. AreTakenAfter taken_pairs.Inhabited T.holds T.mentions T.lines
        (conj.items ∷ []) out.old out.new) }
{
    match T::refute(alloc, &conj)? {
        Verdict::Empty => Ok(()),
        _ => out.push(conj),
    }
}
