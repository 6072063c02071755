//! Lists without conjunctions that lie within others of theirs.
ghost use Rattle.std.specs.Prelude.{◌≡◌, true, [], ◌∷◌, ◌++◌, IfOk};
ghost use Rattle.std.specs.List.{AllByRecursion};
ghost use Rattle.ded_join.specs.Merged.{IsWithinList, IsCondensed, AreLeft};

use crate::merging::{lies_within, merged};
use ded_genrel::GenRel;
use ded_model::memory::NoMemory;
use ded_theory::Theory;
use std::alloc::Global;

/// A list that holds at the same points, and is no longer: of each conjunction without atoms that another one of it
/// plainly implies, and without conjunctions that plainly lie within another one.
///
/// # Errors
/// Out of memory.
pub(crate) fn condensed<T: Theory>(alloc: Global, list: GenRel<T>) -> Result<GenRel<T>, NoMemory>
    ensures { IfOk result (λ r. IsCondensed T.holds T.mentions T.lines list r) }
{
    let mut out = GenRel::new(alloc);
    for conj in list.conjs {
        let conj = merged::<T>(alloc, conj)?;
        out = with_conj(alloc, out, conj)?;
    }
    Ok(out)
}

/// The list with one more conjunction, unless that plainly lies within one of the list, and without those that plainly
/// lie within it.
///
/// # Errors
/// Out of memory.
fn with_conj<T: Theory>(
    alloc: Global,
    list: GenRel<T>,
    conj: Vec<T::Atom>,
) -> Result<GenRel<T>, NoMemory>
    requires { AllByRecursion T.normal conj.items }
    ensures { IfOk result (λ r. IsCondensed T.holds T.mentions T.lines (list ++ conj.items ∷ []) r) }
{
    if lies_in_one(&conj, &list) {
        return Ok(list);
    }
    let mut left = outside_of(alloc, list, &conj)?;
    left.push(conj)?;
    Ok(left)
}

/// Whether the conjunction plainly lies within one of the list.
fn lies_in_one<T: Theory>(conj: &[T::Atom], list: &GenRel<T>) -> bool
    ensures { result ≡ true → IsWithinList T.holds conj.now list.now }
{
    for other in list.list() {
        if lies_within::<T>(conj, other) {
            return true;
        }
    }
    false
}

/// The list without conjunctions that plainly lie within the one.
///
/// # Errors
/// Out of memory.
fn outside_of<T: Theory>(
    alloc: Global,
    list: GenRel<T>,
    conj: &[T::Atom],
) -> Result<GenRel<T>, NoMemory>
    ensures { IfOk result (λ r. AreLeft T.holds T.mentions T.lines conj.now list r) }
{
    let mut left = GenRel::new(alloc);
    for other in list.conjs {
        if lies_within::<T>(&other, conj) {
            continue;
        }
        left.push(other)?;
    }
    Ok(left)
}
