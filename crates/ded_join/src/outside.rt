//! Joins with a small list, by what is outside of it.
//!
//! The pairs of two lists may say the same many times over: of n lists of two half planes each, joined one after
//! another, there are 2^n, and they may make up n + 1 regions alone. What is left of a conjunction when the complement
//! of the small list is taken away from it is made of disjoint pieces, which are never more than the cells of the
//! atoms.
ghost use Rattle.std.specs.Prelude.{◌≡◌, ◌<◌, ◌≤◌, true, false, leb, ◌++◌, length, IfOk};
ghost use Rattle.std.specs.List.{AllByRecursion};
ghost use Rattle.ded_model.specs.Cell.{conj_holds, HoldsSomewhere, HasCells};
ghost use Rattle.ded_theory.specs.Conjunctions.{IsWide};
ghost use Rattle.ded_genrel.specs.Operations.{IsMeet};
ghost use Rattle.ded_genrel.specs.Rounds.{AreRational};
ghost use Rattle.ded_complement.specs.Pieces.{all_atoms, IsListForEach};
ghost use Rattle.ded_join.specs.Few.{IsFew};
ghost use Rattle.ded_join.specs.Kept.{IsShorter};
ghost use Rattle.ded_join.specs.Merged.{IsCondensed};

use crate::condensing::condensed;
use crate::inhabited::join_inhabited;
use ded_complement::{complement, minus};
use ded_genrel::GenRel;
use ded_model::memory::NoMemory;
use ded_model::slot::Slot;
use ded_theory::Theory;
use std::alloc::Global;

/// Fewer pairs are never too many.
const FEW_PAIRS: usize = 32;

/// Of more pairs it isn't asked which lie within others, which takes time in proportion to their square.
const MANY_PAIRS: usize = 128;

/// A list with more atoms isn't small: the complement of a list may have as many conjunctions as there are cells of its
/// atoms.
const FEW_ATOMS: usize = 32;

/// A list that holds where both do, no longer than that of [`join_inhabited`]. It is that one where the second list has
/// more than 32 atoms, or there are no more pairs than one of the lists has. Otherwise it is the pairs, condensed where
/// they are at most 128, or, where these are still more than both lists have, the first list without what is outside of
/// the second one, if that is shorter. `met` grows as in `join_inhabited`. Where the atoms of both lists aren't wide,
/// each conjunction holds somewhere.
///
/// Where the second list has at most 32 atoms, and the atoms of both lists aren't wide, the join has at most 32
/// conjunctions, or at most as many as one of the lists, or for each conjunction of the first list at most as many as
/// the cells that these atoms realise.
///
/// # Errors
/// Out of memory.
pub fn join_shorter<T: Theory>(
    alloc: Global,
    a: &GenRel<T>,
    b: &GenRel<T>,
    slots: &[Slot],
    met: &mut u64,
) -> Result<GenRel<T>, NoMemory>
    requires { AreRational slots.now }
    ensures is { IfOk result (λ r. IsMeet T.holds T.mentions T.lines a.now b.now r) }
    ensures few { IfOk result (λ r. length (all_atoms b.now) ≤ 32
        → (IsWide T.mentions T.lines (all_atoms a.now ++ all_atoms b.now) → ⊥) → IsFew T.cell a.now b.now r) }
    ensures met { IfOk result (λ r. IsShorter T.holds T.mentions T.lines slots.now a.now b.now r met.old met.new) }
{
    let pairs = join_inhabited(alloc, a, b, slots, met)?;
    if !is_small(b) {
        return Ok(pairs);
    }
    let longest = a.list().len().max(b.list().len());
    let pairs = condensed_few(alloc, pairs, longest)?;
    if !has_grown(a, b, &pairs) {
        return Ok(pairs);
    }
    let pieces = without_outside(alloc, a, b)?;
    if pieces.list().len() < pairs.list().len() {
        Ok(pieces)
    } else {
        Ok(pairs)
    }
}

/// The list condensed, where it is longer than so many conjunctions, and short. It gets no longer.
///
/// # Errors
/// Out of memory.
fn condensed_few<T: Theory>(
    alloc: Global,
    list: GenRel<T>,
    longest: usize,
) -> Result<GenRel<T>, NoMemory>
    ensures condensed { IfOk result (λ r. IsCondensed T.holds T.mentions T.lines list r) }
    ensures short { IfOk result (λ r. length list ≤ longest → r ≡ list) }
{
    let count = list.list().len();
    if count > longest && count <= MANY_PAIRS {
        condensed(alloc, list)
    } else {
        Ok(list)
    }
}

/// The first list without what is outside of the second one. Where the atoms of both aren't wide, it has for each
/// conjunction of the first list at most as many as the cells that the atoms realise, and each of them holds somewhere.
///
/// # Errors
/// Out of memory.
fn without_outside<T: Theory>(
    alloc: Global,
    a: &GenRel<T>,
    b: &GenRel<T>,
) -> Result<GenRel<T>, NoMemory>
    ensures is { IfOk result (λ r. IsMeet T.holds T.mentions T.lines a.now b.now r) }
    ensures cells { IfOk result (λ r. (IsWide T.mentions T.lines (all_atoms a.now ++ all_atoms b.now) → ⊥)
        → IsListForEach (λ pieces. HasCells T.cell (all_atoms a.now ++ all_atoms b.now) (length pieces)
        × AllByRecursion (λ c. HoldsSomewhere (conj_holds T.holds c)) pieces) a.now r) }
{
    let outside = complement(alloc, b)?;
    minus(alloc, a, &outside)
}

/// Whether the pairs are many, and more than the conjunctions of either list.
fn has_grown<T: Theory>(a: &GenRel<T>, b: &GenRel<T>, pairs: &GenRel<T>) -> bool
    ensures grown { result ≡ true → (length a.now < length pairs.now) × (length b.now < length pairs.now) }
    ensures few { result ≡ false → 32 < length pairs.now → length a.now < length pairs.now
        → length b.now < length pairs.now → ⊥ }
{
    let count = pairs.list().len();
    count > FEW_PAIRS && count > a.list().len() && count > b.list().len()
}

/// Whether the list has at most 32 atoms. Of one with more [`join_shorter`] gives the list of `join_inhabited`.
pub fn is_small<T: Theory>(list: &GenRel<T>) -> bool
    ensures { result ≡ leb (length (all_atoms list.now)) 32 }
{
    let mut atoms = 0_usize;
    for conj in list.list() {
        atoms = atoms.saturating_add(conj.len());
    }
    atoms <= FEW_ATOMS
}
