//! Sieves: tuples that may hold in a window.
ghost use Rattle.std.specs.Prelude.{◌≡◌, false, IfOk};
ghost use Rattle.std.specs.List.{list_all};
ghost use Rattle.ded_ranges.specs.Tuples.{is_text_column, may_equal, may_differ, agrees, atom_may_hold, tuple_may_hold};
ghost use Rattle.ded_ranges.specs.Windows.{IsMissed, IsNear};
ghost use Rattle.ded_packed.specs.Lent.{lent};

use crate::limit::row_may_hold;
use crate::reach::Reach;
use crate::window::Window;
use ded_model::memory::NoMemory;
use ded_model::name::Name;
use ded_model::slot::{Slot, Sort};
use ded_model::tuple::{Atom, BothAtom, ThemeAtom, Tuple};
use ded_packed::Lent;
use std::alloc::Global;
use std::marker::Model;

/// A window with a reach of it. Contracts see the window.
#[derive(Drop)]
pub struct Sieve<'a> {
    window: &'a Window,
    reach: Reach,
}

impl<'a> Model for Sieve<'a> {
    ghost use Rattle.ded_ranges.specs.declared.window.Window.{Window};
    ghost use Rattle.ded_ranges.specs.Tuples.{IsReachOf};
    ghost use Rattle.ded_ranges.specs.Windows.{is_within};

    ghost Value = { Window };

    ghost view = { λ s. s.window.now };

    ghost invariant = { λ s. IsReachOf s.reach (is_within s.window.now) };
}

impl<'a> Sieve<'a> {
    /// The sieve of a window.
    ///
    /// # Errors
    /// Out of memory.
    pub fn new(alloc: Global, window: &'a Window) -> Result<Sieve<'a>, NoMemory>
        ensures { IfOk result (λ s. s ≡ window.now) }
    {
        let reach = window.reach(alloc)?;
        Ok(Sieve { window, reach })
    }

    /// Whether the tuple may hold somewhere in the window. It does not allocate.
    pub fn may_hold(&self, tuple: &Tuple) -> bool
        ensures { result ≡ false → IsMissed self.now tuple.now }
    {
        let window = self.window;
        atoms_may_hold(&self.reach, &window.texts, &tuple.atoms)
    }
}

impl Window {
    /// The tuples that may hold somewhere in the window, in order.
    ///
    /// # Errors
    /// Out of memory.
    pub fn near<'a>(&self, alloc: Global, tuples: &'a [Tuple]) -> Result<Vec<Lent<'a>>, NoMemory>
        ensures { IfOk result (λ found. IsNear self.now (lent found.items) tuples.now) }
    {
        let sieve = Sieve::new(alloc, self)?;
        let mut found = Vec::new(alloc);
        for tuple in tuples {
            if sieve.may_hold(tuple) {
                found.push(Lent::Plain(tuple))?;
            }
        }
        Ok(found)
    }
}

/// Whether each of the atoms may hold in the reach, where the texts stand in columns.
fn atoms_may_hold(reach: &Reach, texts: &[(usize, Name)], atoms: &[Atom]) -> bool
    ensures { result ≡ tuple_may_hold reach.now texts.now atoms.now }
{
    atoms.iter().all(|atom| atom_may_hold(reach, texts, atom))
}

/// Whether the atom may hold in the reach, where the texts stand in columns.
fn atom_may_hold(reach: &Reach, texts: &[(usize, Name)], atom: &Atom) -> bool
    ensures { result ≡ atom_may_hold reach.now texts.now atom.now }
{
    match atom {
        BothAtom::First(row) => row_may_hold(reach, row),
        BothAtom::Second(atom) => agrees(texts, atom),
    }
}

/// Whether the texts that stand in columns don't contradict the text atom.
fn agrees(texts: &[(usize, Name)], atom: &ThemeAtom) -> bool
    ensures { result ≡ agrees texts.now atom.now }
{
    match atom {
        ThemeAtom::EqText(slot, text) => each_may_equal(texts, *slot, text),
        ThemeAtom::NeText(slot, text) => each_may_differ(texts, *slot, text),
        ThemeAtom::EqSlot(_, _) | ThemeAtom::NeSlot(_, _) => true,
    }
}

/// Whether none of the texts that stand in columns contradicts that the slot has the text.
fn each_may_equal(texts: &[(usize, Name)], slot: Slot, text: &Name) -> bool
    ensures { result ≡ list_all (may_equal slot text.now) texts.now }
{
    texts.iter().all(|own| may_equal(slot, text, own))
}

/// Whether none of the texts that stand in columns contradicts that the slot has another text.
fn each_may_differ(texts: &[(usize, Name)], slot: Slot, text: &Name) -> bool
    ensures { result ≡ list_all (may_differ slot text.now) texts.now }
{
    texts.iter().all(|own| may_differ(slot, text, own))
}

/// Whether a text that stands in a column doesn't contradict that the slot has the text.
fn may_equal(slot: Slot, text: &Name, own: &(usize, Name)) -> bool
    ensures { result ≡ may_equal slot text.now own.now }
{
    !(is_text_column(slot, own.0) && !own.1.is_same(text))
}

/// Whether a text that stands in a column doesn't contradict that the slot has another text.
fn may_differ(slot: Slot, text: &Name, own: &(usize, Name)) -> bool
    ensures { result ≡ may_differ slot text.now own.now }
{
    !(is_text_column(slot, own.0) && own.1.is_same(text))
}

/// Whether the slot is that of the text column of the number.
fn is_text_column(slot: Slot, place: usize) -> bool
    ensures { result ≡ is_text_column slot place }
{
    match slot.sort {
        Sort::Rat => false,
        Sort::Text => slot.number as usize == place,
    }
}
