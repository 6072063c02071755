//! Text atoms, generalized tuples and lists of them.
ghost use Rattle.std.specs.Prelude.{◌≡◌, IfOk};
ghost use Rattle.ded_model.specs.Row.{theme_mentions, atom_mentions, tuple_mentions};

use crate::memory::NoMemory;
use crate::name::Name;
use crate::row::Row;
use crate::slot::Slot;
use std::marker::Model;

/// A comparison of a text slot with a quoted text or with another text slot.
#[derive(PartialEq, Eq, Hash, Drop)]
pub enum ThemeAtom {
    EqText(Slot, Name),
    NeText(Slot, Name),
    EqSlot(Slot, Slot),
    NeSlot(Slot, Slot),
}

/// An atom of one of two kinds.
#[derive(Drop)]
pub enum BothAtom<A, B> {
    First(A),
    Second(B),
}

/// An atom of a generalized tuple: a row or a text atom.
pub type Atom = BothAtom<Row, ThemeAtom>;

/// A generalized tuple: a conjunction of atoms in normal form, text atoms before rows, each once and in order.
/// Contracts see the list of the atoms.
#[derive(Drop)]
pub struct Tuple {
    pub atoms: Vec<Atom>,
}

impl Model for Tuple {
    ghost use Rattle.std.specs.Prelude.{List};
    ghost use Rattle.ded_model.specs.declared.row.Row.{Row};
    ghost use Rattle.ded_model.specs.declared.tuple.ThemeAtom.{ThemeAtom};
    ghost use Rattle.ded_model.specs.declared.tuple.BothAtom.{BothAtom};

    ghost Value = { List (BothAtom Row ThemeAtom) };

    ghost use Rattle.ded_model.specs.Normal.{IsNormalTuple};

    ghost view = { λ t. t.atoms.items };

    ghost invariant = { λ t. IsNormalTuple t.atoms.items };
}

/// A list of generalized tuples. Contracts see the list of the lists of atoms.
#[derive(Drop)]
pub struct Tuples {
    pub list: Vec<Tuple>,
}

impl Model for Tuples {
    ghost use Rattle.std.specs.Prelude.{List};
    ghost use Rattle.ded_model.specs.declared.tuple.Tuple.{Tuple};

    ghost Value = { List Tuple };

    ghost view = { λ t. t.list.items };
}

/// What the negation of an atom is: one atom, or two that exclude each other.
#[derive(Drop)]
pub enum Negated<A> {
    One(A),
    Two(A, A),
}

/// Whether some atom mentions the slot.
#[tactic(auto, unfolding(crate::specs::Row::tuple_mentions))]
pub fn mention(atoms: &[Atom], slot: Slot) -> bool
    ensures { result ≡ tuple_mentions atoms.now slot }
{
    atoms.iter().any(|atom| atom.mentions(slot))
}

impl ThemeAtom {
    /// Whether the text atom mentions the slot.
    #[tactic(auto, unfolding(crate::specs::Row::theme_mentions))]
    pub fn mentions(&self, slot: Slot) -> bool
        ensures { result ≡ theme_mentions self.now slot }
    {
        match self {
            ThemeAtom::EqText(first, _) | ThemeAtom::NeText(first, _) => first.is_same(slot),
            ThemeAtom::EqSlot(first, second) | ThemeAtom::NeSlot(first, second) => {
                first.is_same(slot) || second.is_same(slot)
            }
        }
    }

    /// An equal text atom.
    ///
    /// # Errors
    /// Out of memory.
    pub fn copy(&self) -> Result<ThemeAtom, NoMemory>
        ensures { IfOk result (λ a. a ≡ self.now) }
    {
        match self {
            ThemeAtom::EqText(slot, text) => Ok(ThemeAtom::EqText(*slot, text.copy()?)),
            ThemeAtom::NeText(slot, text) => Ok(ThemeAtom::NeText(*slot, text.copy()?)),
            ThemeAtom::EqSlot(left, right) => Ok(ThemeAtom::EqSlot(*left, *right)),
            ThemeAtom::NeSlot(left, right) => Ok(ThemeAtom::NeSlot(*left, *right)),
        }
    }
}

impl BothAtom<Row, ThemeAtom> {
    /// Whether the atom mentions the slot.
    #[tactic(auto, unfolding(crate::specs::Row::atom_mentions))]
    pub fn mentions(&self, slot: Slot) -> bool
        ensures { result ≡ atom_mentions self.now slot }
    {
        match self {
            BothAtom::First(row) => row.mentions(slot),
            BothAtom::Second(atom) => atom.mentions(slot),
        }
    }

    /// An equal atom.
    ///
    /// # Errors
    /// Out of memory.
    pub fn copy(&self) -> Result<Atom, NoMemory>
        ensures { IfOk result (λ a. a ≡ self.now) }
    {
        match self {
            BothAtom::First(row) => Ok(BothAtom::First(row.copy()?)),
            BothAtom::Second(atom) => Ok(BothAtom::Second(atom.copy()?)),
        }
    }
}

impl Tuple {
    /// An equal tuple.
    ///
    /// # Errors
    /// Out of memory.
    pub fn copy(&self) -> Result<Tuple, NoMemory>
        ensures { IfOk result (λ t. t ≡ self.now) }
    {
        let mut atoms = Vec::with_capacity(*self.atoms.allocator(), self.atoms.len())?;
        for atom in &self.atoms {
            atoms.push(atom.copy()?)?;
        }
        Ok(Tuple { atoms })
    }
}

impl Tuples {
    /// An equal list.
    ///
    /// # Errors
    /// Out of memory.
    pub fn copy(&self) -> Result<Tuples, NoMemory>
        ensures { IfOk result (λ t. t ≡ self.now) }
    {
        let mut list = Vec::with_capacity(*self.list.allocator(), self.list.len())?;
        for tuple in &self.list {
            list.push(tuple.copy()?)?;
        }
        Ok(Tuples { list })
    }
}
