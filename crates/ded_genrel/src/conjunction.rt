//! Copies of conjunctions.
ghost use Rattle.std.specs.Prelude.{◌≡◌, ◌++◌, IfOk};
ghost use Rattle.std.specs.List.{AllByRecursion};
ghost use Rattle.ded_model.specs.Cell.{conj_holds};
ghost use Rattle.ded_model.specs.Renaming.{IsOneToOne, KeepsSorts};
ghost use Rattle.ded_theory.specs.Conjunctions.{conj_mentions, conj_lines};
ghost use Rattle.ded_genrel.specs.Operations.{IsRenaming};

use ded_model::memory::NoMemory;
use ded_model::slot::Slot;
use ded_theory::Theory;
use std::alloc::Global;

/// Copies of the atoms.
///
/// # Errors
/// Out of memory.
pub fn copy_conj<T: Theory>(alloc: Global, atoms: &[T::Atom]) -> Result<Vec<T::Atom>, NoMemory>
    ensures { IfOk result (λ v. v.items ≡ atoms.now) }
{
    let mut copies = Vec::with_capacity(alloc, atoms.len())?;
    push_atoms::<T>(&mut copies, atoms)?;
    Ok(copies)
}

/// Copies of the atoms of both conjunctions, those of the first one first.
///
/// # Errors
/// Out of memory.
pub fn both_conjs<T: Theory>(
    alloc: Global,
    first: &[T::Atom],
    second: &[T::Atom],
) -> Result<Vec<T::Atom>, NoMemory>
    ensures { IfOk result (λ v. v.items ≡ first.now ++ second.now) }
{
    let mut atoms = copy_conj::<T>(alloc, first)?;
    push_atoms::<T>(&mut atoms, second)?;
    Ok(atoms)
}

/// Sets copies of the atoms at the end of a conjunction.
fn push_atoms<T: Theory>(conj: &mut Vec<T::Atom>, atoms: &[T::Atom]) -> Result<(), NoMemory>
    ensures { IfOk result (λ _. conj.new.items ≡ conj.old.items ++ atoms.now) }
{
    for atom in atoms {
        conj.push(T::copy(atom)?)?;
    }
    Ok(())
}

/// The atoms with each slot replaced as the pairs say.
///
/// # Errors
/// Out of memory.
pub fn renamed_conj<T: Theory>(
    alloc: Global,
    atoms: &[T::Atom],
    map: &[(Slot, Slot)],
) -> Result<Vec<T::Atom>, NoMemory>
    requires normal { AllByRecursion T.normal atoms.now }
    requires one { IsOneToOne map.now (conj_mentions T.mentions atoms.now) }
    requires sorts { KeepsSorts map.now (conj_mentions T.mentions atoms.now) }
    ensures is { IfOk result (λ v. IsRenaming map.now (conj_holds T.holds atoms.now) (conj_holds T.holds v.items)
        (conj_mentions T.mentions atoms.now) (conj_mentions T.mentions v.items) (conj_lines T.lines atoms.now)
        (conj_lines T.lines v.items)) }
    ensures normal { IfOk result (λ v. AllByRecursion T.normal v.items) }
{
    let mut renamed = Vec::with_capacity(alloc, atoms.len())?;
    for atom in atoms {
        renamed.push(T::rename(atom, map)?)?;
    }
    Ok(renamed)
}
