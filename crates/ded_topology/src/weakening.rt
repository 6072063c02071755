//! Conjunctions with their strict rows made weak.
ghost use Rattle.std.specs.Prelude.{◌≡◌, IfOk};
ghost use Rattle.ded_topology.specs.Weakening.{weakened_op, weakened_row, weakened_atom, weakened};

use ded_model::memory::NoMemory;
use ded_model::row::{Row, RowOp};
use ded_model::tuple::{Atom, BothAtom};
use std::alloc::Global;

/// The atoms, each `<` of a row with coefficients as `<=`. Where they hold anywhere, no row is without coefficients.
///
/// # Errors
/// Out of memory.
pub(crate) fn weakened(alloc: Global, atoms: &[Atom]) -> Result<Vec<Atom>, NoMemory>
    ensures { IfOk result (λ v. v.items ≡ weakened atoms.now) }
{
    let mut out = Vec::with_capacity(alloc, atoms.len())?;
    for atom in atoms {
        out.push(weakened_atom(atom)?)?;
    }
    Ok(out)
}

/// A text atom as it is, or the weak row.
fn weakened_atom(atom: &Atom) -> Result<Atom, NoMemory>
    ensures { IfOk result (λ a. a ≡ weakened_atom atom.now) }
{
    match atom {
        BothAtom::First(row) => Ok(BothAtom::First(weakened_row(row)?)),
        BothAtom::Second(theme) => Ok(BothAtom::Second(theme.copy()?)),
    }
}

/// The row, `<` as `<=` where it has coefficients.
fn weakened_row(row: &Row) -> Result<Row, NoMemory>
    ensures { IfOk result (λ r. r ≡ weakened_row row.now) }
{
    Ok(Row {
        coefs: row.coefs.copy()?,
        constant: row.constant,
        op: weakened_op(row),
    })
}

/// How the weak row compares.
fn weakened_op(row: &Row) -> RowOp
    ensures { result ≡ weakened_op row.now.op row.now.coefs }
{
    if row.coefs.list().is_empty() {
        return row.op;
    }
    match row.op {
        RowOp::Zero => RowOp::Zero,
        RowOp::AtMost | RowOp::Below => RowOp::AtMost,
    }
}
