//! Tuples that fix different texts at one slot, and so hold nowhere together.
ghost use Rattle.std.specs.Prelude.{◌≡◌, ◌&&◌, true, false};
ghost use Rattle.ded_model.specs.Point.{Point};
ghost use Rattle.ded_model.specs.Row.{atom_holds, tuple_holds};

use ded_model::tuple::{Atom, BothAtom, ThemeAtom};

/// Whether the atoms of the two tuples fix different texts at one slot: then no point satisfies both. It does not
/// allocate.
pub(crate) fn fix_other_texts(first: &[Atom], second: &[Atom]) -> bool
    ensures { result ≡ true → (p : Point) → (tuple_holds first.now p && tuple_holds second.now p) ≡ false }
{
    for atom in first {
        if is_unlike_one(atom, second) {
            return true;
        }
    }
    false
}

/// Whether the atom fixes another text at a slot than one of the others.
fn is_unlike_one(atom: &Atom, others: &[Atom]) -> bool
    ensures { result ≡ true → (p : Point) → (atom_holds atom.now p && tuple_holds others.now p) ≡ false }
{
    for other in others {
        if are_unlike(atom, other) {
            return true;
        }
    }
    false
}

/// Whether the atoms fix different texts at one slot.
fn are_unlike(first: &Atom, second: &Atom) -> bool
    ensures { result ≡ true → (p : Point) → (atom_holds first.now p && atom_holds second.now p) ≡ false }
{
    match (first, second) {
        (
            BothAtom::Second(ThemeAtom::EqText(at, text)),
            BothAtom::Second(ThemeAtom::EqText(there, other)),
        ) => at.is_same(*there) && !text.is_same(other),
        _ => false,
    }
}
