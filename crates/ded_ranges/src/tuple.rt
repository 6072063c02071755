//! The reaches of tuples over columns.
ghost use Rattle.std.specs.Prelude.{◌≡◌, true, IfOk};
ghost use Rattle.ded_model.specs.Point.{Point};
ghost use Rattle.ded_model.specs.Row.{row_holds, atom_holds, tuple_holds};
ghost use Rattle.ded_ranges.specs.Reaches.{Lies};
ghost use Rattle.ded_ranges.specs.Tuples.{IsReachOf};
ghost use Rattle.ded_ranges.specs.Windows.{column_value};

use crate::reach::Reach;
use crate::term::narrow_to_term;
use ded_model::memory::NoMemory;
use ded_model::row::Row;
use ded_model::tuple::{Atom, BothAtom, Tuple};
use std::alloc::Global;

/// A reach of the first columns that contains the values of each point of the tuple. Rows on one column give its ends.
///
/// # Errors
/// Out of memory.
pub fn reach_of(alloc: Global, tuple: &Tuple, width: usize) -> Result<Reach, NoMemory>
    ensures { IfOk result (λ r. IsReachOf r (tuple_holds tuple.now)) }
{
    let mut reach = Reach::everywhere(alloc, width)?;
    narrow_to(&mut reach, &tuple.atoms);
    Ok(reach)
}

/// Narrows the reach to the values at which each row on one column holds.
fn narrow_to(reach: &mut Reach, atoms: &[Atom])
    ensures { (p : Point) → Lies reach.old (column_value p) p.den → tuple_holds atoms.now p ≡ true
        → Lies reach.new (column_value p) p.den }
{
    for i in 0..atoms.len() {
        narrow_to_atom(reach, &atoms[i]);
    }
}

/// Narrows the reach to the values at which the atom holds, if it is a row on one column.
fn narrow_to_atom(reach: &mut Reach, atom: &Atom)
    ensures { (p : Point) → Lies reach.old (column_value p) p.den → atom_holds atom.now p ≡ true
        → Lies reach.new (column_value p) p.den }
{
    match atom {
        BothAtom::First(row) => narrow_to_row(reach, row),
        BothAtom::Second(_) => {}
    }
}

/// Narrows the reach to the values at which the row holds, if it is on one column.
fn narrow_to_row(reach: &mut Reach, row: &Row)
    ensures { (p : Point) → Lies reach.old (column_value p) p.den → row_holds row.now p ≡ true
        → Lies reach.new (column_value p) p.den }
{
    let coefs = row.coefs.list();
    if coefs.len() == 1 {
        let (slot, a) = coefs[0];
        narrow_to_term(reach, slot.number as usize, a, row.constant, row.op);
    }
}
