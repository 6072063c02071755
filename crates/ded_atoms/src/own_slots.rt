//! Atoms with slots of their own.
ghost use Rattle.std.specs.Prelude.{◌≡◌, ◌++◌, true, false};
ghost use Rattle.ded_model.specs.declared.slot.Slot.{Slot};
ghost use Rattle.ded_model.specs.Row.{row_mentions, theme_mentions, tuple_mentions};
ghost use Rattle.ded_model.specs.Normal.{first_slot};
ghost use Rattle.ded_atoms.specs.Own.{last_slot, HasOwnSlot, HaveOwnSlots};

use ded_model::row::Row;
use ded_model::slot::Slot;
use ded_model::tuple::{Atom, BothAtom, ThemeAtom, mention};

/// Whether each atom mentions a slot that no other one does. Then normal atoms hold somewhere, and each of them is
/// needed.
pub(crate) fn have_own_slots(atoms: &[Atom]) -> bool
    ensures { result ≡ true → HaveOwnSlots atoms.now }
{
    for index in 0..atoms.len() {
        if !has_own_slot(&atoms[..index], &atoms[index], &atoms[index + 1..]) {
            return false;
        }
    }
    true
}

/// Whether the atom mentions a slot that none before it and none after it does.
fn has_own_slot(before: &[Atom], atom: &Atom, after: &[Atom]) -> bool
    ensures { result ≡ true → HasOwnSlot before.now atom.now after.now }
{
    match atom {
        BothAtom::First(row) => row_has_own_slot(before, row, after),
        BothAtom::Second(atom) => theme_has_own_slot(before, atom, after),
    }
}

/// Whether the row mentions a slot that none of the atoms before and after does.
fn row_has_own_slot(before: &[Atom], row: &Row, after: &[Atom]) -> bool
    ensures { result ≡ true → (s : Slot) × (row_mentions row.now s ≡ true)
        × (tuple_mentions (before.now ++ after.now) s ≡ false) }
{
    for entry in row.coefs.list() {
        if is_free(before, entry.0, after) {
            return true;
        }
    }
    false
}

/// Whether the text atom mentions a slot that none of the atoms before and after does.
fn theme_has_own_slot(before: &[Atom], atom: &ThemeAtom, after: &[Atom]) -> bool
    ensures { result ≡ true → (s : Slot) × (theme_mentions atom.now s ≡ true)
        × (tuple_mentions (before.now ++ after.now) s ≡ false) }
{
    is_free(before, first_slot(atom), after) || is_free(before, last_slot(atom), after)
}

/// The first slot of a text atom.
pub fn first_slot(atom: &ThemeAtom) -> Slot
    ensures { result ≡ first_slot atom.now }
{
    match atom {
        ThemeAtom::EqText(slot, _)
        | ThemeAtom::NeText(slot, _)
        | ThemeAtom::EqSlot(slot, _)
        | ThemeAtom::NeSlot(slot, _) => *slot,
    }
}

/// The second slot of a text atom of two slots, and else its only one.
pub fn last_slot(atom: &ThemeAtom) -> Slot
    ensures { result ≡ last_slot atom.now }
{
    match atom {
        ThemeAtom::EqText(slot, _)
        | ThemeAtom::NeText(slot, _)
        | ThemeAtom::EqSlot(_, slot)
        | ThemeAtom::NeSlot(_, slot) => *slot,
    }
}

/// Whether none of the atoms before and after mentions the slot.
fn is_free(before: &[Atom], slot: Slot, after: &[Atom]) -> bool
    ensures { result ≡ true → tuple_mentions (before.now ++ after.now) slot ≡ false }
{
    !mention(before, slot) && !mention(after, slot)
}
