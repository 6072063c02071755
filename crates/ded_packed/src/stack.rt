//! Stacks of bytes that numbers, atoms and tuples are put on.
ghost use Rattle.std.specs.Prelude.{◌≡◌, ◌<◌, ◌^◌, [], ◌∷◌, OnOk, IfOk, reverse};
ghost use Rattle.ded_num.specs.Length.{IsShort};
ghost use Rattle.ded_model.specs.declared.tuple.BothAtom.TheVariants.{Second};
ghost use Rattle.ded_model.specs.Coefs.{AreCoefs};
ghost use Rattle.ded_model.specs.Normal.{IsNormalAtom, IsNormalTheme, IsNormalTuple};
ghost use Rattle.ded_packed.specs.Numbers.{natural_in, after_natural, whole_of, whole_in, text_in, after_text};
ghost use Rattle.ded_packed.specs.Numbers.{TextFits};
ghost use Rattle.ded_packed.specs.Atoms.{row_in, after_row, RowFits, tuple_in, IsPacked};
ghost use Rattle.ded_packed.specs.Putting.{IsPutCoef, CoefsPut, IsPutAs, IsPut, AtomsPut};

use crate::kind::Kind;
use ded_model::memory::NoMemory;
use ded_model::name::Name;
use ded_model::row::Row;
use ded_model::slot::Slot;
use ded_model::tuple::{Atom, BothAtom, ThemeAtom, Tuple};
use std::alloc::Global;
use std::marker::Model;

/// Bytes, of which the last one is on top. Contracts see the list of the bytes, the one on top first.
#[derive(Drop)]
pub(crate) struct Stack {
    bytes: Vec<u8>,
}

impl Model for Stack {
    ghost use Rattle.std.specs.Prelude.{List, ℕ, reverse};

    ghost Value = { List ℕ };

    ghost view = { λ s. reverse s.bytes.items };
}

impl Stack {
    /// No bytes.
    pub(crate) fn new(alloc: Global) -> Stack
        ensures { result ≡ [] }
    {
        Stack {
            bytes: Vec::new(alloc),
        }
    }

    /// The bytes, of which the last one is on top, with no room for more.
    pub(crate) fn into_bytes(self) -> Vec<u8>
        ensures { reverse result.items ≡ self }
    {
        let mut bytes = self.bytes;
        bytes.shrink_to_fit();
        bytes
    }

    /// Puts one byte.
    fn push(&mut self, byte: u8) -> Result<(), NoMemory>
        ensures { OnOk result (self.new ≡ byte ∷ self.old) }
    {
        self.bytes.push(byte)?;
        Ok(())
    }

    /// Puts a natural number.
    fn put_natural(&mut self, number: u128) -> Result<(), NoMemory>
        ensures value { OnOk result (natural_in self.new ≡ number) }
        ensures left { OnOk result (after_natural self.new ≡ self.old) }
    {
        if number < 128 {
            return self.push(number as u8);
        }
        self.put_natural(number / 128)?;
        self.push((number % 128 + 128) as u8)
    }

    /// Puts a whole number.
    fn put_whole(&mut self, number: i128) -> Result<(), NoMemory>
        requires { IsShort number }
        ensures value { OnOk result (whole_in self.new ≡ number) }
        ensures left { OnOk result (after_natural self.new ≡ self.old) }
        ensures fits { OnOk result (natural_in self.new < 2 ^ 128) }
    {
        self.put_natural(place_of_whole(number))
    }

    /// Puts a text.
    fn put_text(&mut self, text: &Name) -> Result<(), NoMemory>
        ensures value { OnOk result (text_in self.new ≡ text.now) }
        ensures left { OnOk result (after_text self.new ≡ self.old) }
        ensures fits { OnOk result (TextFits self.new) }
    {
        self.bytes.extend_from_slice(text.bytes.as_slice())?;
        self.put_natural(text.bytes.len() as u128)
    }

    /// Puts a coefficient and its slot.
    fn put_coef(&mut self, coef: &(Slot, i128)) -> Result<(), NoMemory>
        requires { IsShort coef.now.1 }
        ensures { OnOk result (IsPutCoef coef.now self.old self.new) }
    {
        self.put_whole(coef.1)?;
        self.put_natural(coef.0.number as u128)
    }

    /// Puts coefficients, the first on top.
    fn put_coefs(&mut self, coefs: &[(Slot, i128)]) -> Result<(), NoMemory>
        requires { AreCoefs coefs.now }
        ensures { OnOk result (CoefsPut coefs.now 0 self.old self.new) }
    {
        let mut at = coefs.len();
        while at > 0 {
            at -= 1;
            self.put_coef(&coefs[at])?;
        }
        Ok(())
    }

    /// Puts a row, but for its op.
    fn put_row(&mut self, row: &Row) -> Result<(), NoMemory>
        ensures value { OnOk result (row_in row.now.op self.new ≡ row.now) }
        ensures left { OnOk result (after_row self.new ≡ self.old) }
        ensures fits { OnOk result (RowFits self.new) }
    {
        let coefs = row.coefs.list();
        self.put_whole(row.constant)?;
        self.put_coefs(coefs)?;
        self.put_natural(coefs.len() as u128)
    }

    /// Puts a text slot, as its number, and the text under it.
    fn put_slot_and_text(&mut self, slot: Slot, text: &Name) -> Result<(), NoMemory>
        ensures value { OnOk result ((natural_in self.new ≡ slot.number)
            × (text_in (after_natural self.new) ≡ text.now)) }
        ensures left { OnOk result (after_text (after_natural self.new) ≡ self.old) }
        ensures fits { OnOk result ((natural_in self.new < 2 ^ 32) × TextFits (after_natural self.new)) }
    {
        self.put_text(text)?;
        self.put_natural(slot.number as u128)
    }

    /// Puts two text slots, as their numbers, the first on top.
    fn put_slots(&mut self, first: Slot, second: Slot) -> Result<(), NoMemory>
        ensures value { OnOk result ((natural_in self.new ≡ first.number)
            × (natural_in (after_natural self.new) ≡ second.number)) }
        ensures left { OnOk result (after_natural (after_natural self.new) ≡ self.old) }
        ensures fits { OnOk result ((natural_in self.new < 2 ^ 32) × (natural_in (after_natural self.new) < 2 ^ 32)) }
    {
        self.put_natural(second.number as u128)?;
        self.put_natural(first.number as u128)
    }

    /// Puts the parts of a text atom, and answers its kind.
    fn put_theme(&mut self, atom: &ThemeAtom) -> Result<Kind, NoMemory>
        requires { IsNormalTheme atom.now }
        ensures { IfOk result (λ kind. IsPutAs kind (Second atom.now) self.old self.new) }
    {
        match atom {
            ThemeAtom::EqText(slot, text) => {
                self.put_slot_and_text(*slot, text)?;
                Ok(Kind::EqText)
            }
            ThemeAtom::NeText(slot, text) => {
                self.put_slot_and_text(*slot, text)?;
                Ok(Kind::NeText)
            }
            ThemeAtom::EqSlot(first, second) => {
                self.put_slots(*first, *second)?;
                Ok(Kind::EqSlot)
            }
            ThemeAtom::NeSlot(first, second) => {
                self.put_slots(*first, *second)?;
                Ok(Kind::NeSlot)
            }
        }
    }

    /// Puts the parts of an atom, and answers its kind.
    fn put_parts(&mut self, atom: &Atom) -> Result<Kind, NoMemory>
        requires { IsNormalAtom atom.now }
        ensures { IfOk result (λ kind. IsPutAs kind atom.now self.old self.new) }
    {
        match atom {
            BothAtom::First(row) => {
                self.put_row(row)?;
                Ok(Kind::Row(row.op))
            }
            BothAtom::Second(atom) => self.put_theme(atom),
        }
    }

    /// Puts an atom.
    fn put_atom(&mut self, atom: &Atom) -> Result<(), NoMemory>
        requires { IsNormalAtom atom.now }
        ensures { OnOk result (IsPut atom.now self.old self.new) }
    {
        let kind = self.put_parts(atom)?;
        self.push(kind.byte())
    }

    /// Puts the atoms of a tuple, the first on top.
    fn put_atoms(&mut self, atoms: &[Atom]) -> Result<(), NoMemory>
        requires { IsNormalTuple atoms.now }
        ensures { OnOk result (AtomsPut atoms.now 0 self.new) }
    {
        let mut at = atoms.len();
        while at > 0 {
            at -= 1;
            self.put_atom(&atoms[at])?;
        }
        Ok(())
    }

    /// Puts a tuple on a stack without bytes.
    #[tactic(auto, unfolding(crate::specs::Atoms::tuple_in))]
    pub(crate) fn put_tuple(&mut self, tuple: &Tuple) -> Result<(), NoMemory>
        ensures value { OnOk result (tuple_in self.new ≡ tuple.now) }
        ensures packed { OnOk result (IsPacked self.new) }
    {
        self.put_atoms(&tuple.atoms)?;
        self.put_natural(tuple.atoms.len() as u128)
    }
}

/// The place of a whole number in the order 0, -1, 1, -2, 2 ..
fn place_of_whole(number: i128) -> u128
    requires { IsShort number }
    ensures { whole_of result ≡ number }
{
    let twice = 2 * number.unsigned_abs();
    if number < 0 { twice - 1 } else { twice }
}
