//! Conjunctions without atoms that others of theirs imply, and which conjunctions lie within others.
ghost use Rattle.std.specs.Prelude.{◌≡◌, true, [], ◌∷◌, ◌++◌, IfOk};
ghost use Rattle.std.specs.List.{AllByRecursion};
ghost use Rattle.ded_complement.specs.Pieces.{IsAlike};
ghost use Rattle.ded_join.specs.Merged.{IsWithin};

use ded_complement::shortened;
use ded_model::memory::NoMemory;
use ded_theory::Theory;
use std::alloc::Global;

/// The conjunction without atoms that another one of it plainly implies: of rows with the same coefficients the
/// strongest is left.
///
/// # Errors
/// Out of memory.
pub(crate) fn merged<T: Theory>(alloc: Global, conj: Vec<T::Atom>) -> Result<Vec<T::Atom>, NoMemory>
    requires normal { AllByRecursion T.normal conj.items }
    ensures alike { IfOk result (λ v. IsAlike T.holds conj.items v.items) }
    ensures normal { IfOk result (λ v. AllByRecursion T.normal v.items) }
{
    let mut kept = Vec::with_capacity(alloc, conj.len())?;
    for atom in conj {
        kept = with_atom::<T>(kept, atom)?;
    }
    Ok(kept)
}

/// The conjunction with one more atom, unless it plainly implies that one, and without those that this one plainly
/// implies.
///
/// # Errors
/// Out of memory.
fn with_atom<T: Theory>(mut kept: Vec<T::Atom>, atom: T::Atom) -> Result<Vec<T::Atom>, NoMemory>
    requires normal { AllByRecursion T.normal kept.items }
    requires normal_atom { T.normal atom }
    ensures alike { IfOk result (λ v. IsAlike T.holds (kept.items ++ atom ∷ []) v.items) }
    ensures normal { IfOk result (λ v. AllByRecursion T.normal v.items) }
{
    if imply::<T>(&kept, &atom) {
        return Ok(kept);
    }
    if implies_one::<T>(&atom, &kept) {
        return shortened::<T>(kept, atom);
    }
    kept.push(atom)?;
    Ok(kept)
}

/// Whether one of the atoms plainly implies the atom.
fn imply<T: Theory>(atoms: &[T::Atom], atom: &T::Atom) -> bool
    ensures { result ≡ true → IsWithin T.holds atoms.now (atom.now ∷ []) }
{
    for other in atoms {
        if T::implies(other, atom) {
            return true;
        }
    }
    false
}

/// Whether the atom plainly implies one of the atoms.
fn implies_one<T: Theory>(atom: &T::Atom, atoms: &[T::Atom]) -> bool {
    for other in atoms {
        if T::implies(atom, other) {
            return true;
        }
    }
    false
}

/// Whether the conjunction plainly lies within the other one: each atom of that is implied by one of its own.
pub(crate) fn lies_within<T: Theory>(conj: &[T::Atom], other: &[T::Atom]) -> bool
    ensures { result ≡ true → IsWithin T.holds conj.now other.now }
{
    for atom in other {
        if !imply::<T>(conj, atom) {
            return false;
        }
    }
    true
}
