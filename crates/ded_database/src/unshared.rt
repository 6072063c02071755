//! The atoms of a deleted tuple that no other tuple of the relation has.
ghost use Rattle.std.specs.Prelude.{◌≡◌, true, [], ◌∷◌, IfOk};
ghost use Rattle.ded_model.specs.Lines.{IsSubset, atoms_lines};
ghost use Rattle.ded_database.specs.Changes.{before, after, IsDelete};
ghost use Rattle.ded_database.specs.Lost.{AreLeftWithout, AreLost};

use crate::change::Change;
use crate::lines::{is_one_of, lines_of};
use ded_model::memory::NoMemory;
use ded_model::row::Row;
use ded_model::tuple::{Atom, BothAtom, Tuple};
use std::alloc::Global;

/// The rows of the deleted tuple whose lines no tuple has that is left in the relation.
///
/// # Errors
/// Out of memory.
pub(crate) fn unshared(
    alloc: Global,
    change: &Change<'_, '_>,
    gone: &Tuple,
) -> Result<Vec<Atom>, NoMemory>
    requires { IsDelete (before change.now) (after change.now) change.now.name.now gone.now }
    ensures { IfOk result (λ v. AreLost (before change.now) (after change.now) change.now.name.now gone.now v.items) }
{
    let mut left = gone.copy()?.atoms;
    let Some(tuples) = change.snapshot.all(alloc, change.name)? else {
        return Ok(left);
    };
    for tuple in &tuples {
        if left.is_empty() {
            return Ok(left);
        }
        left = left_without(alloc, &left, &tuple.copy(alloc)?)?;
    }
    Ok(left)
}

/// The rows among the atoms whose lines the tuple hasn't.
///
/// # Errors
/// Out of memory.
fn left_without(alloc: Global, atoms: &[Atom], tuple: &Tuple) -> Result<Vec<Atom>, NoMemory>
    ensures { IfOk result (λ v. AreLeftWithout tuple.now atoms.now v.items) }
{
    let lines = lines_of(alloc, &tuple.atoms)?;
    let mut left = Vec::new(alloc);
    for atom in atoms {
        if !is_shared(atom, &lines)? {
            left.push(atom.copy()?)?;
        }
    }
    Ok(left)
}

/// Whether the atom has no line but these.
///
/// # Errors
/// Out of memory.
fn is_shared(atom: &Atom, lines: &[Row]) -> Result<bool, NoMemory>
    ensures { IfOk result (λ b. b ≡ true → IsSubset (atoms_lines (atom.now ∷ [])) lines.now) }
{
    match atom {
        BothAtom::First(row) => is_one_of(row, lines),
        BothAtom::Second(_) => Ok(true),
    }
}
