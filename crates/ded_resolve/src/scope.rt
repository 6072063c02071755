//! The names in scope at a place of a formula, each with its slot.
ghost use Rattle.std.specs.Prelude.{◌≡◌, ◌<◌, ◌^◌, ◌∷◌, IfOk, OnOk, length};
ghost use Rattle.ded_model.specs.Point.{name};
ghost use Rattle.ded_model.specs.Slotted.{slot_of, heading_scope};
ghost use Rattle.ded_resolve.specs.Scope.{without_nearest};

use ded_model::memory::NoMemory;
use ded_model::name::{Heading, Name};
use ded_model::slot::{Slot, Sort};
use std::alloc::Global;
use std::marker::Model;

/// A name and its slot.
#[derive(Drop)]
pub struct BoundName<'a> {
    variable: &'a Name,
    slot: Slot,
}

impl<'a> Model for BoundName<'a> {
    ghost use Rattle.ded_model.specs.declared.slot.Slot.{Slot};
    ghost use Rattle.ded_model.specs.Point.{Key, name};

    ghost Value = { Key × Slot };

    ghost view = { λ b. (name b.variable.now, b.slot) };
}

/// The columns and quantifiers around a place, each with its slot. Contracts see them with the nearest first.
#[derive(Drop)]
pub struct Scope<'a> {
    names: Vec<BoundName<'a>>,
}

impl<'a> Model for Scope<'a> {
    ghost use Rattle.std.specs.Prelude.{List, reverse};
    ghost use Rattle.ded_model.specs.declared.slot.Slot.{Slot};
    ghost use Rattle.ded_model.specs.Point.{Key};

    ghost Value = { List (Key × Slot) };

    ghost view = { λ s. reverse s.names.items };
}

impl<'a> Scope<'a> {
    /// The scope of the columns of a heading, at the slots from 0 on.
    ///
    /// # Errors
    /// Out of memory.
    pub fn new(alloc: Global, heading: &'a Heading) -> Result<Scope<'a>, NoMemory>
        requires { length heading.now < 2 ^ 32 }
        ensures { IfOk result (λ s. s ≡ heading_scope 0 heading.now) }
    {
        let columns = heading.columns.as_slice();
        let mut scope = Scope {
            names: Vec::with_capacity(alloc, columns.len())?,
        };
        let mut at = columns.len();
        while at > 0 {
            at -= 1;
            scope.bind(
                &columns[at].name,
                Slot {
                    number: at as u32,
                    sort: columns[at].sort,
                },
            )?;
        }
        Ok(scope)
    }

    /// Binds the name to the slot; it is the nearest name then.
    ///
    /// # Errors
    /// Out of memory.
    pub fn bind(&mut self, variable: &'a Name, slot: Slot) -> Result<(), NoMemory>
        ensures { OnOk result (self.new ≡ (name variable.now, slot) ∷ self.old) }
    {
        self.names.push(BoundName { variable, slot })?;
        Ok(())
    }

    /// Leaves the nearest name out of the scope.
    pub fn unbind(&mut self)
        ensures { self.new ≡ without_nearest self.old }
    {
        let _ = self.names.pop();
    }

    /// The slot of the nearest column or quantifier of the name, 0 for a name that isn't bound.
    pub fn slot(&self, variable: &Name) -> Slot
        ensures { result ≡ slot_of self.now variable.now }
    {
        let mut at = self.names.len();
        while at > 0 {
            at -= 1;
            let bound = &self.names[at];
            if bound.variable.is_same(variable) {
                return bound.slot;
            }
        }
        Slot {
            number: 0,
            sort: Sort::Rat,
        }
    }
}
