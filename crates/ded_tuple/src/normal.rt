//! The normal tuple of atoms.
ghost use Rattle.std.specs.Prelude.{◌≡◌, ◌∷◌, [], true, IfOk, OnOk};
ghost use Rattle.std.specs.List.{AllByRecursion};
ghost use Rattle.ded_model.specs.declared.slot.Slot.{Slot};
ghost use Rattle.ded_model.specs.Point.{Point};
ghost use Rattle.ded_model.specs.Coefs.{AreCoefs};
ghost use Rattle.ded_model.specs.Row.{tuple_holds, tuple_mentions};
ghost use Rattle.ded_model.specs.Lines.{atoms_lines, IsSubset};
ghost use Rattle.ded_model.specs.Normal.{IsNormalTuple, is_true_row, ordered_atoms};
ghost use Rattle.ded_tuple.specs.Places.{placed};
ghost use Rattle.ded_tuple.specs.TrueRows.{IsNormalOrTrue, without_true};

use crate::placing::put;
use ded_model::memory::NoMemory;
use ded_model::row::{Row, RowOp};
use ded_model::tuple::{Atom, BothAtom, Tuple};
use std::alloc::Global;

/// The normal tuple of atoms that are normal one by one: true rows are left out, and of equal atoms one is kept. It
/// holds where all the atoms do.
///
/// # Errors
/// Out of memory.
pub fn normal_tuple(alloc: Global, mut atoms: Vec<Atom>) -> Result<Tuple, NoMemory>
    requires { AllByRecursion IsNormalOrTrue atoms.items }
    ensures value { IfOk result (λ t. t ≡ ordered_atoms (without_true atoms.items)) }
    ensures normal { IfOk result (λ t. IsNormalTuple t) }
    ensures holds { IfOk result (λ t. (p : Point) → tuple_holds t p ≡ tuple_holds atoms.items p) }
    ensures slots { IfOk result (λ t. (s : Slot) → tuple_mentions t s ≡ true → tuple_mentions atoms.items s ≡ true) }
    ensures lines { IfOk result (λ t. IsSubset (atoms_lines t) (atoms_lines atoms.items)) }
{
    let mut tuple = Tuple {
        atoms: Vec::with_capacity(alloc, atoms.len())?,
    };
    while let Some(atom) = atoms.pop() {
        add(&mut tuple, atom)?;
    }
    Ok(tuple)
}

/// Puts an atom at its place in a tuple, unless it is a true row.
fn add(tuple: &mut Tuple, atom: Atom) -> Result<(), NoMemory>
    requires { IsNormalOrTrue atom }
    ensures { OnOk result (tuple.new ≡ placed (without_true (atom ∷ [])) tuple.old) }
{
    match atom {
        BothAtom::First(row) => {
            if is_true(&row) {
                Ok(())
            } else {
                put(tuple, BothAtom::First(row))
            }
        }
        BothAtom::Second(atom) => put(tuple, BothAtom::Second(atom)),
    }
}

/// Whether the row is one without coefficients that is no inequality below 0. A normal one holds everywhere.
pub fn is_true(row: &Row) -> bool
    ensures value { result ≡ is_true_row row.now }
    ensures coefs { AreCoefs row.now.coefs }
{
    row.coefs.list().is_empty() && row.op != RowOp::Below
}
