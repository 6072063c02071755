//! Lists of order atoms as lists of rows, and back.
ghost use Rattle.std.specs.Prelude.{◌≡◌, true, IfOk};
ghost use Rattle.std.specs.List.{AllByRecursion};
ghost use Rattle.ded_model.specs.Point.{Point};
ghost use Rattle.ded_model.specs.Row.{row_holds};
ghost use Rattle.ded_model.specs.Normal.{IsNormalRow};
ghost use Rattle.ded_model.specs.Negation.{EachPiece};
ghost use Rattle.ded_theory.specs.Eliminations.{eliminated_atoms, eliminated_holds};
ghost use Rattle.ded_order.specs.OrderRows.{is_order_row, IsOrderAtom};

use crate::atom::OrderAtom;
use ded_model::memory::NoMemory;
use ded_model::row::Row;
use ded_model::tuple::Negated;
use ded_theory::Eliminated;
use std::alloc::Global;

/// The rows of the atoms.
///
/// # Errors
/// Out of memory.
pub fn rows_of(alloc: Global, atoms: &[OrderAtom]) -> Result<Vec<Row>, NoMemory>
    ensures { IfOk result (λ rows. rows.items ≡ atoms.now) }
{
    let mut rows = Vec::with_capacity(alloc, atoms.len())?;
    for atom in atoms {
        let row = atom.row().copy()?;
        rows.push(row)?;
    }
    Ok(rows)
}

/// The rows of an elimination as atoms.
///
/// # Errors
/// Out of memory.
pub fn eliminated(alloc: Global, left: Eliminated<Row>) -> Result<Eliminated<OrderAtom>, NoMemory>
    requires order { AllByRecursion IsOrderAtom (eliminated_atoms left) }
    ensures atoms { IfOk result (λ e. eliminated_atoms e ≡ eliminated_atoms left) }
    ensures holds { IfOk result (λ e. (p : Point)
        → eliminated_holds row_holds e p ≡ eliminated_holds row_holds left p) }
{
    match left {
        Eliminated::Never => Ok(Eliminated::Never),
        Eliminated::Conj(rows) => Ok(Eliminated::Conj(atoms_of(alloc, rows)?)),
    }
}

/// The rows as atoms.
fn atoms_of(alloc: Global, rows: Vec<Row>) -> Result<Vec<OrderAtom>, NoMemory>
    requires order { AllByRecursion IsOrderAtom rows.items }
    ensures { IfOk result (λ atoms. atoms.items ≡ rows.items) }
{
    let mut atoms = Vec::with_capacity(alloc, rows.len())?;
    for row in rows {
        atoms.push(OrderAtom::of(row))?;
    }
    Ok(atoms)
}

/// The rows of a negation as atoms. It does not allocate.
pub fn negated(pieces: Negated<Row>) -> Negated<OrderAtom>
    requires normal { EachPiece IsNormalRow pieces }
    requires order { EachPiece (λ r. is_order_row r ≡ true) pieces }
    ensures value { result ≡ pieces }
    ensures order { EachPiece IsOrderAtom result }
{
    match pieces {
        Negated::One(row) => Negated::One(OrderAtom::of(row)),
        Negated::Two(first, second) => Negated::Two(OrderAtom::of(first), OrderAtom::of(second)),
    }
}
