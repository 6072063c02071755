//! Values that `==` tells to be equal are the same.
ghost use Rattle.std.specs.Prelude.{◌≡◌, true, List};
ghost use Rattle.ded_model.specs.declared.row.RowOp.{RowOp};
ghost use Rattle.ded_model.specs.declared.slot.Slot.{Slot};
ghost use Rattle.ded_model.specs.declared.tuple.ThemeAtom.{ThemeAtom};
ghost use Rattle.ded_model.specs.declared.tuple.BothAtom.{BothAtom};
ghost use Rattle.ded_model.specs.Constraint.{LinearConstraint};

use crate::row::{Row, RowOp};
use crate::slot::Slot;
use crate::tuple::{Atom, ThemeAtom, Tuple};

/// Slots, ops of rows and text atoms that `==` tells to be equal are the same.
pub fn equal_parts()
    ensures slots { (s t : Slot) → ⟦<Slot as PartialEq>⟧.eq s t ≡ true → s ≡ t }
    ensures ops { (a b : RowOp) → ⟦<RowOp as PartialEq>⟧.eq a b ≡ true → a ≡ b }
    ensures text_atoms { (a b : ThemeAtom) → ⟦<ThemeAtom as PartialEq>⟧.eq a b ≡ true → a ≡ b }
{}

/// Rows, atoms and tuples that `==` tells to be equal are the same.
pub fn equal_tuples()
    ensures rows { (r q : LinearConstraint) → ⟦<Row as PartialEq>⟧.eq r q ≡ true → r ≡ q }
    ensures atoms { (a b : BothAtom LinearConstraint ThemeAtom) → ⟦<Atom as PartialEq>⟧.eq a b ≡ true → a ≡ b }
    ensures tuples { (t u : List (BothAtom LinearConstraint ThemeAtom)) → ⟦<Tuple as PartialEq>⟧.eq t u ≡ true → t ≡ u }
{
    equal_parts();
}
