//! Goals: formulas with each variable replaced by its slot.
ghost use Rattle.std.specs.Prelude.{◌≡◌, IfOk};
ghost use Rattle.ded_model.specs.Goal.{goal_form, goal_forms};

use crate::memory::NoMemory;
use crate::name::Name;
use crate::row::{Coefs, Row};
use crate::slot::Slot;
use crate::tuple::ThemeAtom;
use std::marker::Model;

/// A sum of slots with coefficients and a constant, all of it over a common denominator of at least 1. All numbers
/// have at most 127 binary digits.
#[derive(Drop)]
pub struct SlotTerm {
    pub coefs: Coefs,
    pub constant: i128,
    pub over: i128,
}

impl Model for SlotTerm {
    ghost use Rattle.ded_model.specs.Sum.{SlotSum};

    ghost Value = { SlotSum };

    ghost use Rattle.ded_model.specs.Sum.{IsSlotSum};

    ghost view = { λ t. record { coefs = t.coefs; constant = t.constant; over = t.over } };

    ghost invariant = { λ t. IsSlotSum t.constant t.over };
}

/// An argument of an atom: a slot, a sum, or a quoted text.
#[derive(Drop)]
pub enum Place {
    At(Slot),
    Value(SlotTerm),
    Quoted(Name),
}

/// The arguments of an atom, in order. Contracts see the list.
#[derive(Drop)]
pub struct Places {
    pub list: Vec<Place>,
}

impl Model for Places {
    ghost use Rattle.std.specs.Prelude.{List};
    ghost use Rattle.ded_model.specs.declared.goal.Place.{Place};

    ghost Value = { List Place };

    ghost view = { λ p. p.list.items };
}

/// A first-order formula over rows, text atoms and atoms of named relations and views.
#[derive(Drop)]
pub enum Goal {
    True,
    False,
    Linear(Row),
    Theme(ThemeAtom),
    Member(Name, Places),
    Not(Box<Goal>),
    And(Vec<Goal>),
    Or(Vec<Goal>),
    Implies(Box<Goal>, Box<Goal>),
    Exists(Slot, Box<Goal>),
    Forall(Slot, Box<Goal>),
}

impl SlotTerm {
    /// An equal sum.
    ///
    /// # Errors
    /// Out of memory.
    pub fn copy(&self) -> Result<SlotTerm, NoMemory>
        ensures { IfOk result (λ t. t ≡ self.now) }
    {
        Ok(SlotTerm {
            coefs: self.coefs.copy()?,
            constant: self.constant,
            over: self.over,
        })
    }
}

impl Place {
    /// An equal place.
    ///
    /// # Errors
    /// Out of memory.
    pub fn copy(&self) -> Result<Place, NoMemory>
        ensures { IfOk result (λ t. t ≡ self.now) }
    {
        match self {
            Place::At(slot) => Ok(Place::At(*slot)),
            Place::Value(term) => Ok(Place::Value(term.copy()?)),
            Place::Quoted(text) => Ok(Place::Quoted(text.copy()?)),
        }
    }
}

impl Places {
    /// Equal places.
    ///
    /// # Errors
    /// Out of memory.
    pub fn copy(&self) -> Result<Places, NoMemory>
        ensures { IfOk result (λ ts. ts ≡ self.now) }
    {
        let mut list = Vec::with_capacity(*self.list.allocator(), self.list.len())?;
        for place in &self.list {
            list.push(place.copy()?)?;
        }
        Ok(Places { list })
    }
}

impl Goal {
    /// A goal that stands for the same.
    ///
    /// # Errors
    /// Out of memory.
    #[cycle(copy)]
    pub fn copy(&self) -> Result<Goal, NoMemory>
        ensures { IfOk result (λ f. goal_form f ≡ goal_form self.now) }
    {
        match self {
            Goal::True => Ok(Goal::True),
            Goal::False => Ok(Goal::False),
            Goal::Linear(row) => Ok(Goal::Linear(row.copy()?)),
            Goal::Theme(atom) => Ok(Goal::Theme(atom.copy()?)),
            Goal::Member(name, places) => Ok(Goal::Member(name.copy()?, places.copy()?)),
            Goal::Not(part) => Ok(Goal::Not(Box::new(*Box::allocator(part), part.copy()?)?)),
            Goal::And(parts) => Ok(Goal::And(copy_goals(parts)?)),
            Goal::Or(parts) => Ok(Goal::Or(copy_goals(parts)?)),
            Goal::Implies(left, right) => Ok(Goal::Implies(
                Box::new(*Box::allocator(left), left.copy()?)?,
                Box::new(*Box::allocator(right), right.copy()?)?,
            )),
            Goal::Exists(slot, part) => {
                Ok(Goal::Exists(*slot, Box::new(*Box::allocator(part), part.copy()?)?))
            }
            Goal::Forall(slot, part) => {
                Ok(Goal::Forall(*slot, Box::new(*Box::allocator(part), part.copy()?)?))
            }
        }
    }
}

/// Goals that stand for the same, one for each.
#[cycle(copy)]
fn copy_goals(parts: &Vec<Goal>) -> Result<Vec<Goal>, NoMemory>
    ensures { IfOk result (λ fs. goal_forms fs.items ≡ goal_forms parts.now.items) }
{
    let mut copies = Vec::with_capacity(*parts.allocator(), parts.len())?;
    for part in parts {
        copies.push(part.copy()?)?;
    }
    Ok(copies)
}
