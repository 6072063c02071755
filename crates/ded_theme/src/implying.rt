//! Text atoms that hold only where others do.
ghost use Rattle.std.specs.Prelude.{◌≡◌, true};
ghost use Rattle.ded_model.specs.Point.{Point};
ghost use Rattle.ded_model.specs.Row.{theme_holds};

use ded_model::tuple::ThemeAtom;

/// Whether it is plain that the one atom holds only where the other one does: they are the same, or the one says which
/// text stands in a slot, and the other one that a different text doesn't stand there.
pub(crate) fn implies(one: &ThemeAtom, other: &ThemeAtom) -> bool
    ensures { result ≡ true → (p : Point) → theme_holds one.now p ≡ true → theme_holds other.now p ≡ true }
{
    match (one, other) {
        (ThemeAtom::EqText(slot, text), ThemeAtom::EqText(there, same)) => {
            slot.is_same(*there) && text.is_same(same)
        }
        (ThemeAtom::NeText(slot, text), ThemeAtom::NeText(there, same)) => {
            slot.is_same(*there) && text.is_same(same)
        }
        (ThemeAtom::EqText(slot, text), ThemeAtom::NeText(there, unlike)) => {
            slot.is_same(*there) && !text.is_same(unlike)
        }
        (ThemeAtom::EqSlot(left, right), ThemeAtom::EqSlot(first, second)) => {
            left.is_same(*first) && right.is_same(*second)
        }
        (ThemeAtom::NeSlot(left, right), ThemeAtom::NeSlot(first, second)) => {
            left.is_same(*first) && right.is_same(*second)
        }
        _ => false,
    }
}
