//! The texts that tuples fix in their columns, and a number for each.
ghost use Rattle.std.specs.Prelude.{◌≡◌};
ghost use Rattle.std.specs.Option.{option_map};
ghost use Rattle.ded_relation.specs.Texts.{is_text, is_text_at, theme_text, atom_text, text_in, code};

use crate::hashing::NameHashing;
use ded_model::name::{Column, Name};
use ded_model::slot::Sort;
use ded_model::tuple::{Atom, BothAtom, ThemeAtom};
use std::hash::{BuildHasher, Hash, Hasher};

/// The code of a column and of a text in it, or of the column alone.
#[tactic(auto, unfolding(crate::specs::Texts::code))]
pub(crate) fn text_code(hashing: NameHashing, place: usize, text: Option<&Name>) -> u64
    ensures { result ≡ code hashing place (option_map (λ t. t.now) text.entry) }
{
    let mut state = hashing.build_hasher();
    state.write_usize(place);
    match text {
        Some(text) => {
            text.hash(&mut state);
            state.finish()
        }
        None => state.finish(),
    }
}

/// The text that the tuple fixes in a column, if it does.
pub(crate) fn text_in(atoms: &[Atom], place: usize) -> Option<&Name>
    ensures { option_map (λ t. t.now) result ≡ text_in place atoms.now }
{
    for i in 0..atoms.len() {
        if let Some(text) = atom_text(&atoms[i], place) {
            return Some(text);
        }
    }
    None
}

/// The text that the atom fixes in a column, if it does.
fn atom_text(atom: &Atom, place: usize) -> Option<&Name>
    ensures { option_map (λ t. t.now) result ≡ atom_text place atom.now }
{
    match atom {
        BothAtom::First(_) => None,
        BothAtom::Second(atom) => theme_text(atom, place),
    }
}

/// The text that the text atom fixes in a column, if it does.
fn theme_text(atom: &ThemeAtom, place: usize) -> Option<&Name>
    ensures { option_map (λ t. t.now) result ≡ theme_text place atom.now }
{
    match atom {
        ThemeAtom::EqText(slot, text) => {
            if is_text(slot.sort) && slot.number as usize == place {
                Some(text)
            } else {
                None
            }
        }
        ThemeAtom::NeText(_, _) | ThemeAtom::EqSlot(_, _) | ThemeAtom::NeSlot(_, _) => None,
    }
}

/// Whether there is a column of the number, and it is one of texts.
pub(crate) fn is_text_at(columns: &[Column], place: usize) -> bool
    ensures { result ≡ is_text_at columns.now place }
{
    place < columns.len() && is_text(columns[place].sort)
}

/// Whether the sort is that of texts.
pub(crate) fn is_text(sort: Sort) -> bool
    ensures { result ≡ is_text sort }
{
    match sort {
        Sort::Rat => false,
        Sort::Text => true,
    }
}
