//! Complement and difference.
ghost use Rattle.std.specs.Prelude.{not, ◌&&◌, ◌||◌, List, ◌++◌, length, IfOk, IfSome};
ghost use Rattle.std.specs.List.{AllByRecursion};
ghost use Rattle.ded_model.specs.Cell.{conj_holds, HoldsSomewhere, HasCells};
ghost use Rattle.ded_theory.specs.Conjunctions.{IsWide};
ghost use Rattle.ded_genrel.specs.Lists.{conjs_hold, conjs_mention, conjs_lines};
ghost use Rattle.ded_genrel.specs.Operations.{IsOperation};
ghost use Rattle.ded_genrel.specs.Rounds.{AreRational};
ghost use Rattle.ded_complement.specs.Boxed.{conjs_in, AreBoxed};
ghost use Rattle.ded_complement.specs.Keys.{AreKeys};
ghost use Rattle.ded_complement.specs.Pieces.{all_atoms, AreDisjoint, IsListForEach, AreAmong, IsMadeOf, ArePieces};

use crate::boxed::{Boxed, bounded_slots, boxed_list};
use crate::by_texts::carve_apart;
use crate::keys::{Keys, keyed, slot_of};
use crate::parts::whole;
use ded_genrel::{GenRel, copy_conj};
use ded_model::memory::NoMemory;
use ded_model::slot::Slot;
use ded_theory::Theory;
use std::alloc::Global;

/// A list that holds at a point exactly where the other doesn't. No point satisfies two of its conjunctions, and none
/// of them tells apart points of one cell of the list's atoms. Where those atoms aren't wide, each conjunction holds
/// somewhere, and they are at most as many as the cells that the atoms realise.
///
/// # Errors
/// Out of memory.
pub fn complement<T: Theory>(alloc: Global, rel: &GenRel<T>) -> Result<GenRel<T>, NoMemory>
    ensures is { IfOk result (λ out. IsOperation T.holds T.mentions T.lines (λ p. not (conjs_hold T.holds rel.now p))
        (conjs_mention T.mentions rel.now) (conjs_lines T.lines rel.now) out) }
    ensures disjoint { IfOk result (λ out. AreDisjoint T.holds out) }
    ensures cells { IfOk result (λ out. (IsWide T.mentions T.lines (all_atoms rel.now) → ⊥)
        → HasCells T.cell (all_atoms rel.now) (length out)) }
    ensures inhabited { IfOk result (λ out. (IsWide T.mentions T.lines (all_atoms rel.now) → ⊥)
        → AllByRecursion (λ c. HoldsSomewhere (conj_holds T.holds c)) out) }
    ensures made { IfOk result (λ out. AllByRecursion (IsMadeOf T.mentions T.lines T.cell (all_atoms rel.now)) out) }
{
    let slots = bounded_slots(alloc, rel)?;
    let boxed = boxed_list::<T>(alloc, rel, &slots)?;
    let keys = keyed::<T>(alloc, &boxed)?;
    outside::<T>(alloc, Vec::new(alloc), &boxed, &slots, &keys)
}

/// A list that holds at a point exactly where the first one does and the second doesn't. None of its conjunctions tells
/// apart points of one cell of the atoms of both. Where these together aren't wide, it has for each conjunction of the
/// first list at most as many as the cells that the atoms realise, and each of them holds somewhere.
///
/// # Errors
/// Out of memory.
pub fn minus<T: Theory>(
    alloc: Global,
    from: &GenRel<T>,
    taken: &GenRel<T>,
) -> Result<GenRel<T>, NoMemory>
    ensures is { IfOk result (λ out. IsOperation T.holds T.mentions T.lines (λ p. conjs_hold T.holds from.now p
        && not (conjs_hold T.holds taken.now p)) (λ s. conjs_mention T.mentions from.now s
        || conjs_mention T.mentions taken.now s) (conjs_lines T.lines from.now ++ conjs_lines T.lines taken.now) out) }
    ensures cells { IfOk result (λ out. (IsWide T.mentions T.lines (all_atoms from.now ++ all_atoms taken.now) → ⊥)
        → IsListForEach (λ pieces. HasCells T.cell (all_atoms from.now ++ all_atoms taken.now) (length pieces)
        × AllByRecursion (λ c. HoldsSomewhere (conj_holds T.holds c)) pieces) from.now out) }
    ensures made { IfOk result (λ out. AllByRecursion
        (IsMadeOf T.mentions T.lines T.cell (all_atoms from.now ++ all_atoms taken.now)) out) }
{
    let slots = bounded_slots(alloc, taken)?;
    let boxed = boxed_list::<T>(alloc, taken, &slots)?;
    let keys = keyed::<T>(alloc, &boxed)?;
    minus_boxed::<T>(alloc, from, &boxed, &slots, &keys)
}

/// The same of a list in boxes, by keys of this.
fn minus_boxed<T: Theory>(
    alloc: Global,
    from: &GenRel<T>,
    taken: &[Boxed<T::Atom>],
    slots: &[Slot],
    keys: &Option<Keys<'_, T::Atom>>,
) -> Result<GenRel<T>, NoMemory>
    requires rational { AreRational slots.now }
    requires boxed { AreBoxed T.holds T.normal slots.now taken.now }
    requires keys { IfSome keys.now (λ k. AreKeys T.holds taken.now (conjs_in taken.now) k) }
    ensures is { IfOk result (λ out. IsOperation T.holds T.mentions T.lines (λ p. conjs_hold T.holds from.now p
        && not (conjs_hold T.holds (conjs_in taken.now) p)) (λ s. conjs_mention T.mentions from.now s
        || conjs_mention T.mentions (conjs_in taken.now) s)
        (conjs_lines T.lines from.now ++ conjs_lines T.lines (conjs_in taken.now)) out) }
    ensures cells { IfOk result (λ out.
        (IsWide T.mentions T.lines (all_atoms from.now ++ all_atoms (conjs_in taken.now)) → ⊥)
        → IsListForEach (λ pieces.
        HasCells T.cell (all_atoms from.now ++ all_atoms (conjs_in taken.now)) (length pieces)
        × AllByRecursion (λ c. HoldsSomewhere (conj_holds T.holds c)) pieces) from.now out) }
    ensures made { IfOk result (λ out. AllByRecursion
        (IsMadeOf T.mentions T.lines T.cell (all_atoms from.now ++ all_atoms (conjs_in taken.now))) out) }
{
    let mut out = GenRel::new(alloc);
    for conj in from.list() {
        let pieces = outside::<T>(alloc, copy_conj::<T>(alloc, conj)?, taken, slots, keys)?;
        out.append(pieces)?;
    }
    Ok(out)
}

/// The pieces of what satisfies the piece and is outside of the list, by keys of this.
fn outside<T: Theory>(
    alloc: Global,
    piece: Vec<T::Atom>,
    taken: &[Boxed<T::Atom>],
    slots: &[Slot],
    keys: &Option<Keys<'_, T::Atom>>,
) -> Result<GenRel<T>, NoMemory>
    requires normal { AllByRecursion T.normal piece.items }
    requires rational { AreRational slots.now }
    requires boxed { AreBoxed T.holds T.normal slots.now taken.now }
    requires keys { IfSome keys.now (λ k. AreKeys T.holds taken.now (conjs_in taken.now) k) }
    ensures { IfOk result (λ out. (atoms : List T.Atom) → IsMadeOf T.mentions T.lines T.cell atoms piece.items
        → AreAmong atoms (all_atoms (conjs_in taken.now))
        → ArePieces T.holds T.mentions T.lines T.cell atoms (λ p. conj_holds T.holds piece.items p
        && not (conjs_hold T.holds (conjs_in taken.now) p)) out) }
{
    let mut out = GenRel::new(alloc);
    let part = whole::<T>(piece, taken, slots, keys)?;
    carve_apart::<T>(&mut out, part, taken, slots, slot_of(keys))?;
    Ok(out)
}
