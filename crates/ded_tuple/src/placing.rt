//! The order of atoms, and atoms put at their places.
ghost use Rattle.std.specs.Prelude.{◌≡◌, OnOk};
ghost use Rattle.ded_model.specs.Normal.{IsNormalAtom, IsNormalTuple, atom_order, theme_order, first_slot, kind_place};
ghost use Rattle.ded_model.specs.Normal.{second_number, quoted_text, place_atom};
ghost use Rattle.ded_tuple.specs.Places.{AreOrdered, atom_place, is_placed};

use ded_model::memory::NoMemory;
use ded_model::tuple::{Atom, BothAtom, ThemeAtom, Tuple};
use std::cmp::Ordering;

/// Puts an atom at its place in a tuple, unless it stands there already.
///
/// # Errors
/// Out of memory.
pub fn put(tuple: &mut Tuple, atom: Atom) -> Result<(), NoMemory>
    requires { IsNormalAtom atom }
    ensures place { OnOk result (tuple.new ≡ place_atom atom tuple.old) }
    ensures normal { OnOk result (IsNormalTuple tuple.new) }
{
    let place = find(tuple.atoms.as_slice(), &atom);
    if !place.taken {
        tuple.atoms.insert(place.at, atom)?;
    }
    Ok(())
}

/// Where an atom stands in a list, or would have to stand.
#[derive(Clone, Copy)]
struct AtomPosition {
    at: usize,
    /// Whether the atom stands there.
    taken: bool,
}

/// The place of an atom in a list in order, found by halving what is left of the list.
fn find(atoms: &[Atom], atom: &Atom) -> AtomPosition
    requires { AreOrdered atoms.now }
    ensures at { result.at ≡ atom_place atom.now atoms.now }
    ensures taken { result.taken ≡ is_placed atom.now atoms.now }
{
    let mut low = 0;
    let mut high = atoms.len();
    while low < high {
        let middle = low + (high - low) / 2;
        match order(atom, &atoms[middle]) {
            Ordering::Less => high = middle,
            Ordering::Equal => {
                return AtomPosition {
                    at: middle,
                    taken: true,
                };
            }
            Ordering::Greater => low = middle + 1,
        }
    }
    AtomPosition {
        at: low,
        taken: false,
    }
}

/// The order of two atoms, text atoms before rows.
fn order(a: &Atom, b: &Atom) -> Ordering
    ensures { result ≡ atom_order a.now b.now }
{
    match (a, b) {
        (BothAtom::Second(a), BothAtom::Second(b)) => order_themes(a, b),
        (BothAtom::Second(_), BothAtom::First(_)) => Ordering::Less,
        (BothAtom::First(_), BothAtom::Second(_)) => Ordering::Greater,
        (BothAtom::First(a), BothAtom::First(b)) => ded_row::order(a, b),
    }
}

/// The order of two text atoms: by first slot, by kind, then by text or by second slot.
fn order_themes(a: &ThemeAtom, b: &ThemeAtom) -> Ordering
    ensures { result ≡ theme_order a.now b.now }
{
    first_number(a)
        .cmp(&first_number(b))
        .then(kind(a).cmp(&kind(b)))
        .then(text(a).cmp(text(b)))
        .then(second_number(a).cmp(&second_number(b)))
}

/// The number of the first slot of a text atom.
fn first_number(atom: &ThemeAtom) -> u32
    ensures { result ≡ (first_slot atom.now).number }
{
    match atom {
        ThemeAtom::EqText(slot, _)
        | ThemeAtom::NeText(slot, _)
        | ThemeAtom::EqSlot(slot, _)
        | ThemeAtom::NeSlot(slot, _) => slot.number,
    }
}

/// The place of the kind of a text atom in the order.
fn kind(atom: &ThemeAtom) -> u8
    ensures { result ≡ kind_place atom.now }
{
    match atom {
        ThemeAtom::EqText(_, _) => 0,
        ThemeAtom::NeText(_, _) => 1,
        ThemeAtom::EqSlot(_, _) => 2,
        ThemeAtom::NeSlot(_, _) => 3,
    }
}

/// The quoted text of a text atom, empty for one of two slots.
fn text(atom: &ThemeAtom) -> &[u8]
    ensures { result.now ≡ quoted_text atom.now }
{
    match atom {
        ThemeAtom::EqText(_, text) | ThemeAtom::NeText(_, text) => text.bytes.as_slice(),
        ThemeAtom::EqSlot(_, _) | ThemeAtom::NeSlot(_, _) => &[],
    }
}

/// The number of the second slot of a text atom, 0 for one with a quoted text.
fn second_number(atom: &ThemeAtom) -> u32
    ensures { result ≡ second_number atom.now }
{
    match atom {
        ThemeAtom::EqText(_, _) | ThemeAtom::NeText(_, _) => 0,
        ThemeAtom::EqSlot(_, slot) | ThemeAtom::NeSlot(_, slot) => slot.number,
    }
}
