//! Slots: the columns and variables that rows, text atoms and plans speak of.
ghost use Rattle.std.specs.Prelude.{◌≡◌, IfOk};
ghost use Rattle.ded_model.specs.Point.{same_slot, stands_in};
ghost use Rattle.ded_model.specs.Renaming.{renamed};

use crate::memory::NoMemory;
use std::marker::Model;

/// What a column or a variable ranges over: rational numbers, or texts (finite byte strings).
#[derive(Clone, Copy, PartialEq, Eq, Hash, Debug, Default)]
pub enum Sort {
    #[default]
    Rat,
    Text,
}

/// A numbered place for a value. In one relation or query two slots of one number have one sort.
#[derive(Clone, Copy, PartialEq, Eq, Hash, Debug, Default)]
pub struct Slot {
    pub number: u32,
    pub sort: Sort,
}

impl Slot {
    /// Whether both slots have the same number and the same sort.
    pub fn is_same(self, other: Slot) -> bool
        ensures { result ≡ same_slot self other }
    {
        self == other
    }
}

/// Whether the slot is one of the list.
pub fn stands_in(slots: &[Slot], slot: Slot) -> bool
    ensures { result ≡ stands_in slots.now slot }
{
    slots.iter().any(|other| other.is_same(slot))
}

/// The slot that the pairs put in the place of a slot; one that no pair names stays.
pub fn renamed(map: &[(Slot, Slot)], slot: Slot) -> Slot
    ensures { result ≡ renamed map.now slot }
{
    for (from, to) in map {
        if from.is_same(slot) {
            return *to;
        }
    }
    slot
}

/// Slots of which no two are the same, as a scan reads a relation's columns into them. Contracts see the list.
#[derive(Drop)]
pub struct Slots {
    pub list: Vec<Slot>,
}

impl Model for Slots {
    ghost use Rattle.std.specs.Prelude.{List};
    ghost use Rattle.ded_model.specs.declared.slot.Slot.{Slot};

    ghost Value = { List Slot };

    ghost use Rattle.ded_model.specs.Point.{AreDistinctSlots};

    ghost view = { λ s. s.list.items };

    ghost invariant = { λ s. AreDistinctSlots s.list.items };
}

impl Slots {
    /// An equal list of slots.
    ///
    /// # Errors
    /// Out of memory.
    pub fn copy(&self) -> Result<Slots, NoMemory>
        ensures { IfOk result (λ s. s ≡ self.now) }
    {
        Ok(Slots {
            list: self.list.clone()?,
        })
    }
}
