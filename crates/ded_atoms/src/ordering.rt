//! Tuples of order rows as conjunctions of order rows and text atoms, and back.
ghost use Rattle.std.specs.Prelude.{◌≡◌, true, false, MatchOption, IfOk};
ghost use Rattle.ded_model.specs.Normal.{IsNormalTheme, IsNormalTuple};
ghost use Rattle.ded_theory.specs.Both.{IsByKind};
ghost use Rattle.ded_order.specs.OrderRows.{IsOrderAtom};
ghost use Rattle.ded_atoms.specs.Orders.{is_order_atom, are_orders, AreOrderAtoms};

use ded_model::memory::NoMemory;
use ded_model::tuple::{Atom, BothAtom, ThemeAtom};
use ded_order::{OrderAtom, is_order};
use std::alloc::Global;

/// Equal atoms in the same order, none where some row is no order row. Then nothing is copied.
///
/// # Errors
/// Out of memory.
pub(crate) fn order_atoms(
    alloc: Global,
    atoms: &[Atom],
) -> Result<Option<Vec<BothAtom<OrderAtom, ThemeAtom>>>, NoMemory>
    requires { IsNormalTuple atoms.now }
    ensures { IfOk result (λ o. MatchOption o (are_orders atoms.now ≡ false) (λ v. (v.items ≡ atoms.now)
        × AreOrderAtoms atoms.now)) }
{
    if !are_orders(atoms) {
        return Ok(None);
    }
    Ok(Some(copied(alloc, atoms)?))
}

/// Whether all the rows are order rows. It does not allocate.
pub fn are_orders(atoms: &[Atom]) -> bool
    ensures { result ≡ are_orders atoms.now }
{
    for atom in atoms {
        if !is_order_atom(atom) {
            return false;
        }
    }
    true
}

/// Whether the atom is an order row or a text atom. It does not allocate.
fn is_order_atom(atom: &Atom) -> bool
    ensures { result ≡ is_order_atom atom.now }
{
    match atom {
        BothAtom::First(row) => is_order(row),
        BothAtom::Second(_) => true,
    }
}

/// Equal atoms in the same order.
fn copied(alloc: Global, atoms: &[Atom]) -> Result<Vec<BothAtom<OrderAtom, ThemeAtom>>, NoMemory>
    requires normal { IsNormalTuple atoms.now }
    requires orders { AreOrderAtoms atoms.now }
    ensures { IfOk result (λ v. v.items ≡ atoms.now) }
{
    let mut list = Vec::with_capacity(alloc, atoms.len())?;
    for atom in atoms {
        list.push(copy_of(atom)?)?;
    }
    Ok(list)
}

/// An equal atom.
fn copy_of(atom: &Atom) -> Result<BothAtom<OrderAtom, ThemeAtom>, NoMemory>
    requires { IsByKind IsOrderAtom IsNormalTheme atom.now }
    ensures { IfOk result (λ a. a ≡ atom.now) }
{
    match atom {
        BothAtom::First(row) => Ok(BothAtom::First(OrderAtom::of(row.copy()?))),
        BothAtom::Second(theme) => Ok(BothAtom::Second(theme.copy()?)),
    }
}

/// The atoms as atoms of tuples, in the same order.
///
/// # Errors
/// Out of memory.
pub fn tuple_atoms(
    alloc: Global,
    atoms: Vec<BothAtom<OrderAtom, ThemeAtom>>,
) -> Result<Vec<Atom>, NoMemory>
    ensures { IfOk result (λ v. v.items ≡ atoms.items) }
{
    let mut list = Vec::with_capacity(alloc, atoms.len())?;
    for atom in atoms {
        list.push(tuple_atom(atom))?;
    }
    Ok(list)
}

/// The atom as an atom of tuples. It does not allocate.
fn tuple_atom(atom: BothAtom<OrderAtom, ThemeAtom>) -> Atom
    ensures { result ≡ atom }
{
    match atom {
        BothAtom::First(row) => BothAtom::First(row.into_row()),
        BothAtom::Second(theme) => BothAtom::Second(theme),
    }
}
