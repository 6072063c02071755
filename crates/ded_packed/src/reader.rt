//! Numbers, atoms and tuples read from bytes, from the last byte to the first.
ghost use Rattle.std.specs.Prelude.{◌≡◌, ◌<◌, ◌≤◌, ◌^◌, length, take, drop, reverse, OnOk, IfOk};
ghost use Rattle.ded_model.specs.declared.slot.Slot.{Slot};
ghost use Rattle.ded_model.specs.Coefs.{AreCoefs};
ghost use Rattle.ded_model.specs.Normal.{IsNormalAtom, IsNormalTuple};
ghost use Rattle.ded_packed.specs.Numbers.{byte_in, natural_in, after_natural, whole_of, whole_in, text_in, after_text};
ghost use Rattle.ded_packed.specs.Numbers.{TextFits};
ghost use Rattle.ded_packed.specs.Atoms.{coef_in, coefs_in, after_coefs, CoefsFit, row_in, after_row, RowFits, slot_in};
ghost use Rattle.ded_packed.specs.Atoms.{parts_in, after_parts, PartsFit, atom_in, after_atom, AtomFits, atoms_in};
ghost use Rattle.ded_packed.specs.Atoms.{AtomsFit, tuple_in, IsPacked};

use crate::kind::Kind;
use ded_model::memory::NoMemory;
use ded_model::name::Name;
use ded_model::row::{Coefs, Row, RowOp};
use ded_model::slot::{Slot, Sort};
use ded_model::tuple::{Atom, BothAtom, ThemeAtom, Tuple};
use std::alloc::Global;
use std::marker::Model;

/// Bytes that are read from the last one to the first. Contracts see the list of those that are left, the next one
/// first.
#[derive(Drop)]
pub(crate) struct Reader<'a> {
    left: &'a [u8],
}

impl<'a> Model for Reader<'a> {
    ghost use Rattle.std.specs.Prelude.{List, ℕ, reverse};

    ghost Value = { List ℕ };

    ghost view = { λ r. reverse r.left.now };
}

impl<'a> Reader<'a> {
    /// Nothing of the bytes is read.
    pub(crate) fn new(bytes: &'a [u8]) -> Reader<'a>
        ensures { result ≡ reverse bytes.now }
    {
        Reader { left: bytes }
    }

    /// The next byte, 0 where none is left.
    fn byte(&mut self) -> u8
        ensures value { result ≡ byte_in self.old }
        ensures left { self.new ≡ drop 1 self.old }
    {
        match self.left.split_last() {
            Some((byte, left)) => {
                self.left = left;
                *byte
            }
            None => 0,
        }
    }

    /// The next bytes, as many as the count, in the order in which they stand.
    fn bytes(&mut self, count: usize) -> &'a [u8]
        requires { count ≤ length self.old }
        ensures value { result.now ≡ reverse (take count self.old) }
        ensures left { self.new ≡ drop count self.old }
    {
        let (left, bytes) = self.left.split_at(self.left.len() - count);
        self.left = left;
        bytes
    }

    /// The next natural number.
    fn natural(&mut self) -> u128
        requires { natural_in self.old < 2 ^ 128 }
        ensures value { result ≡ natural_in self.old }
        ensures left { self.new ≡ after_natural self.old }
    {
        let byte = self.byte();
        if byte < 128 {
            return byte as u128;
        }
        let rest = self.natural();
        128 * rest + (byte - 128) as u128
    }

    /// The next whole number.
    fn whole(&mut self) -> i128
        requires { natural_in self.old < 2 ^ 128 }
        ensures value { result ≡ whole_in self.old }
        ensures left { self.new ≡ after_natural self.old }
    {
        whole_at(self.natural())
    }

    /// The next text.
    fn text(&mut self, alloc: Global) -> Result<Name, NoMemory>
        requires { TextFits self.old }
        ensures value { IfOk result (λ n. n ≡ text_in self.old) }
        ensures left { OnOk result (self.new ≡ after_text self.old) }
    {
        let count = self.natural() as usize;
        let bytes = self.bytes(count);
        Ok(Name {
            bytes: bytes.to_vec(alloc)?,
        })
    }

    /// The next coefficient and its slot.
    fn coef(&mut self) -> (Slot, i128)
        requires slot { natural_in self.old < 2 ^ 32 }
        requires number { natural_in (after_natural self.old) < 2 ^ 128 }
        ensures value { result ≡ coef_in self.old }
        ensures left { self.new ≡ after_natural (after_natural self.old) }
    {
        let number = self.natural() as u32;
        let a = self.whole();
        let slot = Slot {
            number,
            sort: Sort::Rat,
        };
        (slot, a)
    }

    /// The next coefficients, as many as the count.
    fn coefs(&mut self, alloc: Global, count: usize) -> Result<Coefs, NoMemory>
        requires fits { CoefsFit count self.old }
        requires coefs { AreCoefs (coefs_in count self.old) }
        ensures value { IfOk result (λ c. c ≡ coefs_in count self.old) }
        ensures left { OnOk result (self.new ≡ after_coefs count self.old) }
    {
        let mut coefs = Coefs::new(alloc);
        for _ in 0..count {
            let (slot, a) = self.coef();
            coefs.push(slot, a)?;
        }
        Ok(coefs)
    }

    /// The next row, which is compared with 0 as the op says.
    fn row(&mut self, alloc: Global, op: RowOp) -> Result<Row, NoMemory>
        requires fits { RowFits self.old }
        requires coefs { AreCoefs (coefs_in (natural_in self.old) (after_natural self.old)) }
        ensures value { IfOk result (λ r. r ≡ row_in op self.old) }
        ensures left { OnOk result (self.new ≡ after_row self.old) }
    {
        let count = self.natural() as usize;
        let coefs = self.coefs(alloc, count)?;
        let constant = self.whole();
        Ok(Row {
            coefs,
            constant,
            op,
        })
    }

    /// The next text slot.
    fn slot(&mut self) -> Slot
        requires { natural_in self.old < 2 ^ 32 }
        ensures value { result ≡ slot_in self.old }
        ensures left { self.new ≡ after_natural self.old }
    {
        Slot {
            number: self.natural() as u32,
            sort: Sort::Text,
        }
    }

    /// The parts of an atom of the kind, which are next.
    fn parts(&mut self, alloc: Global, kind: Kind) -> Result<Atom, NoMemory>
        requires fits { PartsFit kind self.old }
        requires normal { IsNormalAtom (parts_in kind self.old) }
        ensures value { IfOk result (λ a. a ≡ parts_in kind self.old) }
        ensures left { OnOk result (self.new ≡ after_parts kind self.old) }
    {
        let atom = match kind {
            Kind::Row(op) => return Ok(BothAtom::First(self.row(alloc, op)?)),
            Kind::EqText => ThemeAtom::EqText(self.slot(), self.text(alloc)?),
            Kind::NeText => ThemeAtom::NeText(self.slot(), self.text(alloc)?),
            Kind::EqSlot => ThemeAtom::EqSlot(self.slot(), self.slot()),
            Kind::NeSlot => ThemeAtom::NeSlot(self.slot(), self.slot()),
        };
        Ok(BothAtom::Second(atom))
    }

    /// The next atom.
    fn atom(&mut self, alloc: Global) -> Result<Atom, NoMemory>
        requires fits { AtomFits self.old }
        requires normal { IsNormalAtom (atom_in self.old) }
        ensures value { IfOk result (λ a. a ≡ atom_in self.old) }
        ensures left { OnOk result (self.new ≡ after_atom self.old) }
    {
        let kind = Kind::of(self.byte());
        self.parts(alloc, kind)
    }

    /// The next atoms, as many as the count.
    fn atoms(&mut self, alloc: Global, count: usize) -> Result<Vec<Atom>, NoMemory>
        requires fits { AtomsFit count self.old }
        requires normal { IsNormalTuple (atoms_in count self.old) }
        ensures { IfOk result (λ v. v.items ≡ atoms_in count self.old) }
    {
        let mut atoms = Vec::with_capacity(alloc, count)?;
        for _ in 0..count {
            atoms.push(self.atom(alloc)?)?;
        }
        Ok(atoms)
    }

    /// The tuple.
    #[tactic(auto, unfolding(crate::specs::Atoms::tuple_in))]
    pub(crate) fn tuple(&mut self, alloc: Global) -> Result<Tuple, NoMemory>
        requires { IsPacked self.old }
        ensures { IfOk result (λ t. t ≡ tuple_in self.old) }
    {
        let count = self.natural() as usize;
        Ok(Tuple {
            atoms: self.atoms(alloc, count)?,
        })
    }
}

/// The whole number at a place of the order 0, -1, 1, -2, 2 ..
fn whole_at(place: u128) -> i128
    ensures { result ≡ whole_of place }
{
    let half = (place / 2) as i128;
    if place % 2 == 0 { half } else { -1 - half }
}
