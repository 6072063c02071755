//! Tuples without superfluous atoms.
ghost use Rattle.std.specs.Prelude.{◌≡◌, ◌≢◌, true, MatchOption, IfOk};
ghost use Rattle.std.specs.List.{AllByRecursion, AllPairs};
ghost use Rattle.ded_model.specs.declared.slot.Slot.{Slot};
ghost use Rattle.ded_model.specs.Point.{Point, IsPoint};
ghost use Rattle.ded_model.specs.Row.{atom_holds, tuple_mentions, tuples_hold, tuples_mention};
ghost use Rattle.ded_model.specs.Cell.{IsReduced};
ghost use Rattle.ded_model.specs.Lines.{IsSubset, atoms_lines, tuples_lines};
ghost use Rattle.ded_model.specs.Normal.{IsNormalTuple};
ghost use Rattle.ded_model.specs.Width.{IsNarrowList};
ghost use Rattle.ded_atoms.specs.Kept.{ArePartsOf, IsReducedTuple, IsSiftedPart, IsReducedPart, AreReducedParts};
ghost use Rattle.ded_atoms.specs.Orders.{AreOrderAtoms};

use crate::ordering::{order_atoms, tuple_atoms};
use crate::own_slots::have_own_slots;
use crate::repeated::distinct_tuples;
use crate::theories::{Atoms, OrderAtoms};
use ded_model::memory::NoMemory;
use ded_model::tuple::{BothAtom, ThemeAtom, Tuple, Tuples};
use ded_order::OrderAtom;
use ded_reduce::{Reduced, reduce};
use std::alloc::Global;

/// Tuples that hold at the same points, with nothing superfluous, in the same order: each is one of the tuples without
/// the atoms that its others imply. Tuples that are found to hold nowhere are dropped, and of equal tuples the first
/// one is kept, so that none stands twice. Each tuple that is narrow, or whose rows are all order rows, holds
/// somewhere, and each of its atoms is needed: without it the others hold at a point at which it doesn't.
///
/// # Errors
/// Out of memory.
pub fn reduced(alloc: Global, tuples: Tuples) -> Result<Tuples, NoMemory>
    ensures holds { IfOk result (λ ts. (p : Point) → IsPoint p → tuples_hold ts p ≡ tuples_hold tuples p) }
    ensures kept { IfOk result (λ ts. ArePartsOf ts tuples) }
    ensures once { IfOk result (λ ts. AllPairs (λ t u. t ≢ u) ts) }
    ensures slots { IfOk result (λ ts. (s : Slot) → tuples_mention ts s ≡ true → tuples_mention tuples s ≡ true) }
    ensures lines { IfOk result (λ ts. IsSubset (tuples_lines ts) (tuples_lines tuples)) }
    ensures normal { IfOk result (λ ts. AllByRecursion IsNormalTuple ts) }
    ensures reduced { IfOk result (λ ts. AllByRecursion (λ t. IsNarrowList t → IsReduced atom_holds t) ts) }
    ensures orders { IfOk result (λ ts. AllByRecursion (λ t. AreOrderAtoms t → IsReduced atom_holds t) ts) }
{
    let first = distinct_tuples(alloc, tuples)?;
    if all_have_own_slots(&first.list) {
        return Ok(first);
    }
    distinct_tuples(alloc, each_reduced(alloc, first)?)
}

/// Whether each atom of each tuple mentions a slot that no other atom of its tuple does. Then none of the tuples has
/// superfluous atoms.
fn all_have_own_slots(tuples: &[Tuple]) -> bool
    ensures { result ≡ true → AreReducedParts tuples.now tuples.now }
{
    for tuple in tuples {
        if !have_own_slots(&tuple.atoms) {
            return false;
        }
    }
    true
}

/// Each tuple without superfluous atoms, if it isn't found to hold nowhere.
fn each_reduced(alloc: Global, tuples: Tuples) -> Result<Tuples, NoMemory>
    ensures { IfOk result (λ ts. AreReducedParts ts tuples) }
{
    let mut list = Vec::with_capacity(alloc, tuples.list.len())?;
    for tuple in tuples.list {
        if let Some(reduced) = reduced_tuple(alloc, tuple)? {
            list.push(reduced)?;
        }
    }
    Ok(Tuples { list })
}

/// The tuple without superfluous atoms, or nothing where it is found to hold nowhere. One whose atoms have slots of
/// their own stays as it is.
fn reduced_tuple(alloc: Global, tuple: Tuple) -> Result<Option<Tuple>, NoMemory>
    ensures { IfOk result (λ r. IsReducedPart tuple r) }
{
    if have_own_slots(&tuple.atoms) {
        return Ok(Some(tuple));
    }
    reduce_answer(alloc, &tuple)
}

/// The tuple without the atoms that its others imply, or nothing where it is found to hold nowhere. What is left is in
/// normal form and holds at the same points, with no new slots and lines. Where it is narrow, or its rows are all order
/// rows, it holds somewhere, and each of its atoms is needed.
///
/// # Errors
/// Out of memory.
pub fn reduce_answer(alloc: Global, tuple: &Tuple) -> Result<Option<Tuple>, NoMemory>
    ensures part { IfOk result (λ r. IsReducedPart tuple.now r) }
    ensures slots { IfOk result (λ r. MatchOption r (Unit {0}) (λ t. (s : Slot) → tuple_mentions t s ≡ true
        → tuple_mentions tuple.now s ≡ true)) }
    ensures lines { IfOk result (λ r. MatchOption r (Unit {0})
        (λ t. IsSubset (atoms_lines t) (atoms_lines tuple.now))) }
{
    if let Some(atoms) = order_atoms(alloc, &tuple.atoms)? {
        return sifted_orders(alloc, &atoms);
    }
    match sifted(alloc, tuple)? {
        Some(left) => sifted_again(alloc, left),
        None => Ok(None),
    }
}

/// The tuple without the atoms that its others imply, as rows of any shape, or nothing where it is found to hold
/// nowhere.
fn sifted(alloc: Global, tuple: &Tuple) -> Result<Option<Tuple>, NoMemory>
    ensures { IfOk result (λ r. IsSiftedPart tuple.now r) }
{
    match reduce::<Atoms>(alloc, &tuple.atoms)? {
        Reduced::Gone => Ok(None),
        Reduced::Kept(atoms) => Ok(Some(Tuple { atoms })),
    }
}

/// The tuple, sifted once more where only order rows are left of it: these are decided whatever their numbers.
fn sifted_again(alloc: Global, tuple: Tuple) -> Result<Option<Tuple>, NoMemory>
    requires { IsReducedTuple tuple }
    ensures { IfOk result (λ r. IsReducedPart tuple r) }
{
    match order_atoms(alloc, &tuple.atoms)? {
        Some(atoms) => sifted_orders(alloc, &atoms),
        None => Ok(Some(tuple)),
    }
}

/// The tuple of the order rows and text atoms that the others don't imply, or nothing where they hold nowhere.
fn sifted_orders(
    alloc: Global,
    atoms: &[BothAtom<OrderAtom, ThemeAtom>],
) -> Result<Option<Tuple>, NoMemory>
    requires normal { IsNormalTuple atoms.now }
    requires orders { AreOrderAtoms atoms.now }
    ensures { IfOk result (λ r. IsReducedPart atoms.now r) }
{
    match reduce::<OrderAtoms>(alloc, atoms)? {
        Reduced::Gone => Ok(None),
        Reduced::Kept(atoms) => Ok(Some(Tuple {
            atoms: tuple_atoms(alloc, atoms)?,
        })),
    }
}
