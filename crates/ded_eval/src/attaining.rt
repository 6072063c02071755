//! Conjunctions of atoms over some slots, of which it is enough to know that they hold somewhere.
ghost use Rattle.std.specs.Prelude.{◌≡◌, true, IfOk};
ghost use Rattle.std.specs.List.{AllByRecursion, list_all};
ghost use Rattle.ded_model.specs.declared.slot.Sort.TheVariants.{Text};
ghost use Rattle.ded_model.specs.Point.{Point, IsPoint, stands_in};
ghost use Rattle.ded_model.specs.Row.{row_holds, theme_holds, atom_holds};
ghost use Rattle.ded_theory.specs.declared.answers.Verdict.TheVariants.{Empty, Inhabited};
ghost use Rattle.ded_eval.specs.Finding.{HasValues, AreAlike, IsMetVerdict, IsConjVerdict, IsListVerdict};
ghost use Rattle.ded_atoms.specs.Reading.{atom_of};

use crate::beside::put_behind;
use ded_atoms::{AtomRef, OfTuples, first_slot, last_slot};
use ded_genrel::GenRel;
use ded_model::memory::NoMemory;
use ded_model::row::Row;
use ded_model::slot::{Slot, Sort, stands_in};
use ded_model::tuple::ThemeAtom;
use ded_theory::{Theory, Verdict};
use std::alloc::Global;

/// What is found of the list at points at which the atoms hold: `Empty` where it holds at none of them, and `Inhabited`
/// where one of its conjunctions is over the slots alone and holds somewhere together with the atoms.
///
/// # Errors
/// Out of memory.
pub(crate) fn list_attained<T: OfTuples>(
    alloc: Global,
    list: GenRel<T>,
    atoms: &[T::Atom],
    slots: &[Slot],
) -> Result<Verdict, NoMemory>
    requires { AllByRecursion T.normal atoms.now }
    ensures { IfOk result (IsListVerdict T.holds atoms.now slots.now list) }
{
    let mut are_refuted = true;
    for conj in list.conjs {
        let verdict = conj_attained::<T>(alloc, conj, atoms, slots)?;
        if is_inhabited(verdict) {
            return Ok(Verdict::Inhabited);
        }
        are_refuted = are_refuted && is_empty(verdict);
    }
    Ok(if are_refuted {
        Verdict::Empty
    } else {
        Verdict::Unknown
    })
}

/// The same of one conjunction.
///
/// # Errors
/// Out of memory.
fn conj_attained<T: OfTuples>(
    alloc: Global,
    conj: Vec<T::Atom>,
    atoms: &[T::Atom],
    slots: &[Slot],
) -> Result<Verdict, NoMemory>
    requires conj { AllByRecursion T.normal conj.items }
    requires atoms { AllByRecursion T.normal atoms.now }
    ensures { IfOk result (IsConjVerdict T.holds atoms.now slots.now conj.items) }
{
    let are_own = are_over::<T>(&conj, slots);
    match met_verdict::<T>(alloc, atoms, conj)? {
        Verdict::Empty => Ok(Verdict::Empty),
        Verdict::Inhabited if are_own => Ok(Verdict::Inhabited),
        Verdict::Inhabited | Verdict::Unknown => Ok(Verdict::Unknown),
    }
}

/// What the theory finds of both conjunctions together.
///
/// # Errors
/// Out of memory.
fn met_verdict<T: Theory>(
    alloc: Global,
    first: &[T::Atom],
    second: Vec<T::Atom>,
) -> Result<Verdict, NoMemory>
    requires first { AllByRecursion T.normal first.now }
    requires second { AllByRecursion T.normal second.items }
    ensures { IfOk result (IsMetVerdict T.holds first.now second.items) }
{
    let both = put_behind::<T>(alloc, first, second)?;
    T::refute(alloc, &both)
}

/// Whether the verdict is that nothing is there.
pub(crate) fn is_empty(verdict: Verdict) -> bool
    ensures { result ≡ true → verdict ≡ Empty }
{
    match verdict {
        Verdict::Empty => true,
        Verdict::Inhabited | Verdict::Unknown => false,
    }
}

/// Whether it is that something is.
pub(crate) fn is_inhabited(verdict: Verdict) -> bool
    ensures { result ≡ true → verdict ≡ Inhabited }
{
    match verdict {
        Verdict::Inhabited => true,
        Verdict::Empty | Verdict::Unknown => false,
    }
}

/// Whether the atoms are over the slots alone: so they hold alike at points with the same values there.
pub(crate) fn are_over<T: OfTuples>(atoms: &[T::Atom], slots: &[Slot]) -> bool
    ensures { result ≡ true → AreAlike T.holds slots.now atoms.now }
{
    for atom in atoms {
        if !is_over(&T::lent(atom), slots) {
            return false;
        }
    }
    true
}

/// Whether the atom is over the slots alone.
fn is_over(atom: &AtomRef<'_>, slots: &[Slot]) -> bool
    ensures { result ≡ true → (p q : Point) → IsPoint p → IsPoint q → HasValues slots.now p q
        → atom_holds (atom_of atom.now) p ≡ atom_holds (atom_of atom.now) q }
{
    match atom {
        AtomRef::Linear(row) => is_row_over(row, slots),
        AtomRef::Theme(atom) => is_theme_over(atom, slots),
    }
}

/// Whether the row mentions only the slots.
fn is_row_over(row: &Row, slots: &[Slot]) -> bool
    ensures { result ≡ true → (p q : Point) → IsPoint p → IsPoint q → HasValues slots.now p q
        → row_holds row.now p ≡ row_holds row.now q }
{
    are_coefs_over(row.coefs.list(), slots)
}

/// Whether the coefficients are of the slots alone.
fn are_coefs_over(coefs: &[(Slot, i128)], slots: &[Slot]) -> bool
    ensures { result ≡ list_all (λ c. stands_in slots.now c.0) coefs.now }
{
    coefs.iter().all(|coef| stands_in(slots, coef.0))
}

/// Whether the text atom mentions only the slots.
fn is_theme_over(atom: &ThemeAtom, slots: &[Slot]) -> bool
    ensures { result ≡ true → (p q : Point) → HasValues slots.now p q
        → theme_holds atom.now p ≡ theme_holds atom.now q }
{
    is_text_of(first_slot(atom), slots) && is_text_of(last_slot(atom), slots)
}

/// Whether the slot is a text slot of the list.
fn is_text_of(slot: Slot, slots: &[Slot]) -> bool
    ensures sort { result ≡ true → slot.sort ≡ Text }
    ensures stands { result ≡ true → stands_in slots.now slot ≡ true }
{
    match slot.sort {
        Sort::Text => stands_in(slots, slot),
        Sort::Rat => false,
    }
}
