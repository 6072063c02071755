//! Tuples read as conjunctions of a theory, and atoms of a theory lent as the rows and text atoms that they stand for.
ghost use Rattle.std.specs.Prelude.{IfOk};
ghost use Rattle.std.specs.List.{AllByRecursion};
ghost use Rattle.ded_model.specs.Normal.{IsNormalAtom};
ghost use Rattle.ded_packed.specs.Lent.{lent, tuple_of};
ghost use Rattle.ded_atoms.specs.Reading.{IsConjunctionOf, IsListOf};

use ded_genrel::GenRel;
use ded_model::memory::NoMemory;
use ded_model::row::Row;
use ded_model::tuple::{Atom, ThemeAtom, Tuple};
use ded_packed::Lent;
use ded_theory::Theory;
use std::alloc::Global;
use std::hash::Hash;

/// A row or a text atom, lent.
#[derive(Drop)]
pub enum AtomRef<'a> {
    Linear(&'a Row),
    Theme(&'a ThemeAtom),
}

/// A theory whose atoms stand for rows and text atoms.
pub trait OfTuples: Theory<Atom: Eq + Hash> {
    ghost use Rattle.std.specs.Prelude.{◌≡◌, true};
    ghost use Rattle.ded_model.specs.Coefs.{AreCoefs};
    ghost use Rattle.ded_model.specs.Lines.{Line, In};
    ghost use Rattle.ded_model.specs.Row.{Atom};
    ghost use Rattle.ded_atoms.specs.Reading.{StandsFor, atom_of};

    /// Whether a normal row or text atom can be read as an atom.
    ghost reads: { Atom → Type 0 };

    /// The atom that stands for a normal row or text atom.
    ///
    /// # Errors
    /// Out of memory.
    fn read(atom: &Atom) -> Result<Self::Atom, NoMemory>
        requires normal { IsNormalAtom atom.now }
        requires reads { reads atom.now }
        ensures stands { IfOk result (λ a. StandsFor Self.holds Self.mentions Self.lines a atom.now) }
        ensures normal { IfOk result Self.normal };

    /// The row or text atom that an atom stands for. It doesn't allocate.
    fn lent(atom: &Self::Atom) -> AtomRef<'_>
        ensures { StandsFor Self.holds Self.mentions Self.lines atom.now (atom_of result) };

    /// Atoms that `==` tells to be equal are the same. It does nothing.
    fn equal_atoms()
        ensures { (a b : Self.Atom) → Self.Atom.eq a b ≡ true → a ≡ b };

    /// The lines of an atom in normal form have rational slots in order.
    ghost line_coefs: { (a : Self.Atom) (l : Line) → Self.normal a → In l (Self.lines a) → AreCoefs l.coefs };
}

/// The conjunction that stands for a tuple.
///
/// # Errors
/// Out of memory.
pub fn conjunction<T: OfTuples>(alloc: Global, tuple: &Tuple) -> Result<Vec<T::Atom>, NoMemory>
    requires { AllByRecursion T.reads tuple.now }
    ensures stands { IfOk result (λ v. IsConjunctionOf T.holds T.mentions T.lines v.items tuple.now) }
    ensures normal { IfOk result (λ v. AllByRecursion T.normal v.items) }
{
    let mut atoms = Vec::with_capacity(alloc, tuple.atoms.len())?;
    for atom in &tuple.atoms {
        atoms.push(T::read(atom)?)?;
    }
    Ok(atoms)
}

/// The list of conjunctions that stands for a list of tuples.
///
/// # Errors
/// Out of memory.
pub fn conjunctions<T: OfTuples>(alloc: Global, tuples: &[Lent<'_>]) -> Result<GenRel<T>, NoMemory>
    requires { AllByRecursion (λ t. AllByRecursion T.reads t) (lent tuples.now) }
    ensures { IfOk result (λ r. IsListOf T.holds T.mentions T.lines r (lent tuples.now)) }
{
    let mut list = GenRel::new(alloc);
    for &tuple in tuples {
        list.push(lent_conjunction::<T>(alloc, tuple)?)?;
    }
    Ok(list)
}

/// The conjunction that stands for a tuple that is lent.
fn lent_conjunction<T: OfTuples>(alloc: Global, tuple: Lent<'_>) -> Result<Vec<T::Atom>, NoMemory>
    requires { AllByRecursion T.reads (tuple_of tuple) }
    ensures stands { IfOk result (λ v. IsConjunctionOf T.holds T.mentions T.lines v.items (tuple_of tuple.entry)) }
    ensures normal { IfOk result (λ v. AllByRecursion T.normal v.items) }
{
    match tuple {
        Lent::Plain(tuple) => conjunction::<T>(alloc, tuple),
        Lent::Packed(packed) => conjunction::<T>(alloc, &packed.unpack(alloc)?),
    }
}
