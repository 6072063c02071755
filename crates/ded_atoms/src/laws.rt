//! A tuple is a conjunction of rows and text atoms.
ghost use Rattle.std.specs.Prelude.{◌≡◌, List};
ghost use Rattle.std.specs.List.{AllByRecursion};
ghost use Rattle.ded_model.specs.declared.slot.Slot.{Slot};
ghost use Rattle.ded_model.specs.Point.{Point};
ghost use Rattle.ded_model.specs.Row.{Atom, tuple_holds, tuple_mentions};
ghost use Rattle.ded_model.specs.Cell.{conj_holds, atom_cell};
ghost use Rattle.ded_model.specs.Lines.{atoms_lines};
ghost use Rattle.ded_model.specs.Normal.{IsNormalTuple};
ghost use Rattle.ded_model.specs.Width.{IsNarrowList};
ghost use Rattle.ded_tuple.specs.TrueRows.{IsNormalOrTrue};
ghost use Rattle.ded_theory.specs.Conjunctions.{conj_mentions, conj_lines, IsWide};

use crate::theories::Atoms;
use ded_theory::Theory;

/// A tuple holds where its atoms do, mentions what they mention and has their lines.
pub fn tuples_are_conjunctions()
    ensures holds { (t : List Atom) (p : Point) → conj_holds ⟦<Atoms as Theory>⟧.holds t p ≡ tuple_holds t p }
    ensures slots { (t : List Atom) (s : Slot) → conj_mentions ⟦<Atoms as Theory>⟧.mentions t s ≡ tuple_mentions t s }
    ensures cells { (a : Atom) (p : Point) → ⟦<Atoms as Theory>⟧.cell a p ≡ atom_cell a p }
    ensures lines { (t : List Atom) → conj_lines ⟦<Atoms as Theory>⟧.lines t ≡ atoms_lines t }
{}

/// The atoms of a normal tuple are in the normal form that the theory asks for, and they are wide only where the tuple
/// isn't narrow. Atoms in that form are normal one by one, as the making of a normal tuple asks.
pub fn normal_tuples()
    ensures normal { (t : List Atom) → IsNormalTuple t → AllByRecursion ⟦<Atoms as Theory>⟧.normal t }
    ensures atoms { (atoms : List Atom) → AllByRecursion ⟦<Atoms as Theory>⟧.normal atoms
        → AllByRecursion IsNormalOrTrue atoms }
    ensures narrow { (t : List Atom) → IsNormalTuple t → IsNarrowList t
        → IsWide ⟦<Atoms as Theory>⟧.mentions ⟦<Atoms as Theory>⟧.lines t → ⊥ }
{}

/// Atoms that are normal one by one, in whatever order they stand, are wide only where they aren't narrow.
pub fn narrow_atoms()
    ensures { (atoms : List Atom) → AllByRecursion ⟦<Atoms as Theory>⟧.normal atoms → IsNarrowList atoms
        → IsWide ⟦<Atoms as Theory>⟧.mentions ⟦<Atoms as Theory>⟧.lines atoms → ⊥ }
{}
