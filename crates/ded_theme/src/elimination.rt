//! Eliminating a slot from a conjunction of text atoms.
//!
//! Where some equality gives the slot a word, the word is put in its place. Else each atom that mentions the slot says
//! that it differs from something, and is dropped: some text differs from finitely many others.
ghost use Rattle.std.specs.Prelude.{◌≡◌, ◌↔◌, IfOk, IsTrue, MatchOption, true, false};
ghost use Rattle.std.specs.List.{AllByRecursion};
ghost use Rattle.ded_model.specs.declared.slot.Slot.{Slot};
ghost use Rattle.ded_model.specs.Point.{Point, IsPoint, same_slot};
ghost use Rattle.ded_model.specs.Row.{theme_holds, theme_mentions};
ghost use Rattle.ded_model.specs.Cell.{conj_holds};
ghost use Rattle.ded_model.specs.Normal.{IsNormalTheme};
ghost use Rattle.ded_theory.specs.Conjunctions.{conj_mentions};
ghost use Rattle.ded_theory.specs.Eliminations.{eliminated_atoms, eliminated_holds, SomeExtension};
ghost use Rattle.ded_theme.specs.Sources.{source, is_equality, IsNormalSource};
ghost use Rattle.ded_theme.specs.Replacing.{replaced_holds, replaced_mentions, IsPartner, IsPinned, IsFree, kept};

use crate::substitution::{Made, with_word};
use crate::words::{Word, comparison_of};
use ded_model::memory::NoMemory;
use ded_model::slot::Slot;
use ded_model::tuple::ThemeAtom;
use ded_theory::Eliminated;
use std::alloc::Global;

/// A conjunction without the slot that holds exactly where some extension of the point at the slot satisfies all the
/// atoms.
///
/// # Errors
/// Out of memory.
pub(crate) fn eliminate(
    alloc: Global,
    atoms: &[ThemeAtom],
    slot: Slot,
) -> Result<Eliminated<ThemeAtom>, NoMemory>
    requires { AllByRecursion IsNormalTheme atoms.now }
    ensures holds { IfOk result (λ e. (p : Point) → IsPoint p → IsTrue (eliminated_holds theme_holds e p)
        ↔ SomeExtension slot (conj_holds theme_holds atoms.now) p) }
    ensures normal { IfOk result (λ e. AllByRecursion IsNormalTheme (eliminated_atoms e)) }
    ensures slots { IfOk result (λ e. (s : Slot) → conj_mentions theme_mentions (eliminated_atoms e) s ≡ true
        → (same_slot s slot ≡ false) × (conj_mentions theme_mentions atoms.now s ≡ true)) }
{
    match word_for(atoms, slot) {
        Some(word) => with_word_in_all(alloc, atoms, slot, word),
        None => Ok(Eliminated::Conj(without(alloc, atoms, slot)?)),
    }
}

/// A word that one of the equalities gives the slot, a quoted text where there is such an equality; none where no
/// equality mentions the slot.
fn word_for<'a>(atoms: &'a [ThemeAtom], slot: Slot) -> Option<Word<'a>>
    requires { AllByRecursion IsNormalTheme atoms.now }
    ensures { MatchOption result (IsFree slot atoms.now) (λ w. IsPinned slot (source w) atoms.now) }
{
    let mut found = None;
    for atom in atoms {
        match partner(atom, slot) {
            Some(Word::Quoted(text)) => return Some(Word::Quoted(text)),
            Some(word) => found = Some(word),
            None => {}
        }
    }
    found
}

/// The word that the atom gives the slot, none where it is no equality of the slot.
fn partner(atom: &ThemeAtom, slot: Slot) -> Option<Word<'_>>
    requires { IsNormalTheme atom.now }
    ensures { MatchOption result (theme_mentions atom.now slot ≡ true
        → is_equality atom.now ≡ false) (λ w. IsPartner slot (source w) atom.now) }
{
    let comparison = comparison_of(atom);
    if !comparison.equal {
        None
    } else if comparison.left.is_slot(slot) {
        Some(comparison.right)
    } else if comparison.right.is_slot(slot) {
        Some(comparison.left)
    } else {
        None
    }
}

/// The conjunction of the atoms with the word in place of the slot.
fn with_word_in_all<'a>(
    alloc: Global,
    atoms: &'a [ThemeAtom],
    slot: Slot,
    word: Word<'a>,
) -> Result<Eliminated<ThemeAtom>, NoMemory>
    requires normal { AllByRecursion IsNormalTheme atoms.now }
    requires word { IsNormalSource (source word) }
    ensures holds { IfOk result (λ e. (p : Point)
        → eliminated_holds theme_holds e p ≡ conj_holds (replaced_holds slot (source word.entry)) atoms.now p) }
    ensures normal { IfOk result (λ e. AllByRecursion IsNormalTheme (eliminated_atoms e)) }
    ensures slots { IfOk result (λ e. (t : Slot) → conj_mentions theme_mentions (eliminated_atoms e) t ≡ true
        → conj_mentions (replaced_mentions slot (source word.entry)) atoms.now t ≡ true) }
{
    let mut remaining = Vec::new(alloc);
    for atom in atoms {
        match with_word(atom, slot, word)? {
            Made::Always => {}
            Made::Never => return Ok(Eliminated::Never),
            Made::Atom(made) => remaining.push(made)?,
        }
    }
    Ok(Eliminated::Conj(remaining))
}

/// The atoms that don't mention the slot.
fn without(alloc: Global, atoms: &[ThemeAtom], slot: Slot) -> Result<Vec<ThemeAtom>, NoMemory>
    ensures { IfOk result (λ v. v.items ≡ kept slot atoms.now) }
{
    let mut remaining = Vec::new(alloc);
    for atom in atoms {
        if !atom.mentions(slot) {
            remaining.push(atom.copy()?)?;
        }
    }
    Ok(remaining)
}
