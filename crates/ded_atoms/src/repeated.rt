//! Lists without repetitions.
ghost use Rattle.std.specs.Prelude.{◌≡◌, ◌≢◌, true, [], IfOk};
ghost use Rattle.std.specs.List.{AllPairs, IsDistinct};
ghost use Rattle.indexmap.specs.IndexSet.{insert_all};
ghost use Rattle.ded_model.specs.declared.slot.Slot.{Slot};
ghost use Rattle.ded_model.specs.Point.{Point};
ghost use Rattle.ded_model.specs.Row.{tuples_hold, tuples_mention};
ghost use Rattle.ded_model.specs.Lines.{IsSubset, tuples_lines};
ghost use Rattle.ded_genrel.specs.Lists.{conjs_hold, conjs_mention, conjs_lines};
ghost use Rattle.ded_model.specs.Sublists.{IsSublist};

use crate::reading::OfTuples;
use ded_genrel::GenRel;
use ded_model::laws::sameness::equal_tuples;
use ded_model::memory::NoMemory;
use ded_model::tuple::Tuples;
use indexmap::IndexSet;
use std::alloc::Global;
use std::hash::Hash;

/// The conjunctions in the same order, without those that are equal to an earlier one. No conjunction stands twice.
///
/// # Errors
/// Out of memory.
pub fn distinct<T: OfTuples>(alloc: Global, list: GenRel<T>) -> Result<GenRel<T>, NoMemory>
    ensures holds { IfOk result (λ r. (p : Point) → conjs_hold T.holds r p ≡ conjs_hold T.holds list p) }
    ensures once { IfOk result (λ r. AllPairs (λ c d. c ≢ d) r) }
    ensures slots { IfOk result (λ r. (s : Slot) → conjs_mention T.mentions r s ≡ true
        → conjs_mention T.mentions list s ≡ true) }
    ensures lines { IfOk result (λ r. IsSubset (conjs_lines T.lines r) (conjs_lines T.lines list)) }
{
    T::equal_atoms();
    let conjs = once(alloc, list.conjs)?;
    Ok(GenRel { conjs })
}

/// The tuples in the same order, without those that are equal to an earlier one. No tuple stands twice.
///
/// # Errors
/// Out of memory.
pub(crate) fn distinct_tuples(alloc: Global, tuples: Tuples) -> Result<Tuples, NoMemory>
    ensures holds { IfOk result (λ ts. (p : Point) → tuples_hold ts p ≡ tuples_hold tuples p) }
    ensures kept { IfOk result (λ ts. IsSublist ts tuples) }
    ensures once { IfOk result (λ ts. AllPairs (λ t u. t ≢ u) ts) }
    ensures slots { IfOk result (λ ts. (s : Slot) → tuples_mention ts s ≡ true → tuples_mention tuples s ≡ true) }
    ensures lines { IfOk result (λ ts. IsSubset (tuples_lines ts) (tuples_lines tuples)) }
{
    equal_tuples();
    let list = once(alloc, tuples.list)?;
    Ok(Tuples { list })
}

/// The elements in the same order, without those that are equal to an earlier one. No two of them are equal.
fn once<A: Eq + Hash + Drop>(alloc: Global, list: Vec<A>) -> Result<Vec<A>, NoMemory>
    ensures kept { IfOk result (λ r. r.items ≡ insert_all A.eq [] list.items) }
    ensures once { IfOk result (λ r. IsDistinct A.eq r.items) }
{
    if list.len() < 2 {
        return Ok(list);
    }
    let once: IndexSet<A> = IndexSet::from_iter(alloc, list)?;
    let list = Vec::from_iter(alloc, once)?;
    Ok(list)
}
