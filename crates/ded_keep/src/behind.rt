//! Lists of tuples one behind another, without what is covered already.
ghost use Rattle.std.specs.Prelude.{◌≡◌, true, IfOk, OnOk};
ghost use Rattle.ded_keep.specs.Behind.{IsPartOf, IsCovered, IsPutBehind};

use ded_algebra::Evaluate;
use ded_model::laws::sameness::equal_tuples;
use ded_model::memory::NoMemory;
use ded_model::row::{Row, RowOp};
use ded_model::tuple::{Atom, BothAtom, Tuple, Tuples};
use std::alloc::Global;

/// Puts the tuples behind the list, in the same order, but for those that are found to be covered: equal to one of the
/// list, or within one. Of a long list those at its ends are compared.
///
/// # Errors
/// Out of memory.
pub fn put_behind<E: Evaluate>(
    alloc: Global,
    list: &mut Vec<Tuple>,
    more: Tuples,
) -> Result<(), NoMemory>
    ensures { OnOk result (IsPutBehind list.old.items more list.new.items) }
{
    for tuple in more.list {
        if !is_covered::<E>(alloc, &tuple, list)? {
            list.push(tuple)?;
        }
    }
    Ok(())
}

/// How many tuples are compared at each end of a list.
const ENDS: usize = 64;

/// Whether the tuple is found to be within one of the list. Of a long list those at its ends are looked at, so the cost
/// doesn't grow with the list.
fn is_covered<E: Evaluate>(alloc: Global, tuple: &Tuple, list: &[Tuple]) -> Result<bool, NoMemory>
    ensures { IfOk result (λ b. b ≡ true → IsCovered tuple.now list.now) }
{
    if list.len() < 2 * ENDS {
        return is_among::<E>(alloc, tuple, list);
    }
    if is_among::<E>(alloc, tuple, &list[..ENDS])? {
        return Ok(true);
    }
    is_among::<E>(alloc, tuple, &list[list.len() - ENDS..])
}

/// Whether the tuple is found to be within one of the list.
fn is_among<E: Evaluate>(alloc: Global, tuple: &Tuple, list: &[Tuple]) -> Result<bool, NoMemory>
    ensures { IfOk result (λ b. b ≡ true → IsCovered tuple.now list.now) }
{
    for other in list {
        if covers::<E>(alloc, other, tuple)? {
            return Ok(true);
        }
    }
    Ok(false)
}

/// Whether the first tuple is found to hold where the second one does: they are equal, or the tuple of both is the
/// second one.
fn covers<E: Evaluate>(alloc: Global, other: &Tuple, tuple: &Tuple) -> Result<bool, NoMemory>
    ensures { IfOk result (λ b. b ≡ true → IsPartOf tuple.now other.now) }
{
    equal_tuples();
    if *other == *tuple {
        return Ok(true);
    }
    if !may_cover(other, tuple) {
        return Ok(false);
    }
    match E::meet(alloc, tuple, other)? {
        Some(both) => Ok(both == *tuple),
        None => Ok(false),
    }
}

/// Whether each atom of the first tuple may follow from the second one.
fn may_cover(other: &Tuple, tuple: &Tuple) -> bool {
    for atom in &other.atoms {
        if !may_follow(atom, &tuple.atoms) {
            return false;
        }
    }
    true
}

/// Whether the atom may follow from the others: it is one of them, or an inequality beside an equality or one of the
/// same coefficients that is as strong. Others follow rarely.
fn may_follow(atom: &Atom, atoms: &[Atom]) -> bool {
    match atom {
        BothAtom::First(row) if row.op != RowOp::Zero => {
            atoms.iter().any(|other| may_imply(other, row))
        }
        BothAtom::First(_) | BothAtom::Second(_) => atoms.contains(atom),
    }
}

/// Whether the atom is an equality, or a row of the same coefficients that is as strong as the inequality.
fn may_imply(atom: &Atom, row: &Row) -> bool {
    match atom {
        BothAtom::First(other) => {
            other.op == RowOp::Zero || (other.coefs == row.coefs && other.constant >= row.constant)
        }
        BothAtom::Second(_) => false,
    }
}
