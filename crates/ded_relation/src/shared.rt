//! Relations that several hold in common, until one of them changes its own.
ghost use Rattle.std.specs.Prelude.{◌≡◌, ◌==◌, true, None, IfOk, IfErr, OnOk, OnErr};
ghost use Rattle.std.specs.List.{list_any};
ghost use Rattle.std.specs.Option.{unwrap_or};
ghost use Rattle.ded_model.specs.declared.command.Refusal.TheVariants.{Memory};
ghost use Rattle.ded_relation.specs.Tuples.{AreUpTo, refusal_of, IsSame, Pushes, Removes};

use crate::relation::Relation;
use ded_model::command::Refusal;
use ded_model::memory::NoMemory;
use ded_model::tuple::Tuple;
use std::alloc::Global;
use std::marker::Model;
use std::rc::Rc;

/// A relation that others may share. Contracts see the relation.
#[derive(Drop)]
pub struct SharedRelation {
    relation: Rc<Relation>,
}

impl Model for SharedRelation {
    ghost use Rattle.ded_relation.specs.Relations.{Relation};

    ghost Value = { Relation };

    ghost view = { λ s. s.relation.value };
}

impl SharedRelation {
    /// The relation, which nothing shares yet.
    ///
    /// # Errors
    /// Out of memory.
    pub fn new(alloc: Global, relation: Relation) -> Result<SharedRelation, NoMemory>
        ensures { IfOk result (λ s. s ≡ relation) }
    {
        Ok(SharedRelation {
            relation: Rc::new(alloc, relation)?,
        })
    }

    /// The relation.
    pub fn get(&self) -> &Relation
        ensures { result.now ≡ self.now }
    {
        self.relation.as_ref()
    }

    /// The same relation, for another who holds it. No tuple is copied.
    ///
    /// # Errors
    /// Out of memory.
    pub fn share(&self) -> Result<SharedRelation, NoMemory>
        ensures { IfOk result (λ s. s ≡ self.now) }
    {
        Ok(SharedRelation {
            relation: self.relation.clone()?,
        })
    }

    /// Takes one tuple more, and gives its number. Where others share the relation, a copy of it takes the tuple.
    ///
    /// # Errors
    /// `Full` or `Spent` as [`Relation::refusal`] says, otherwise out of memory. All but the index is as it was then.
    pub fn push(&mut self, limit: u32, tuple: Tuple) -> Result<u32, Refusal>
        requires { AreUpTo self.old.inserts self.old.tuples.entries }
        ensures ok { IfOk result (λ k. Pushes self.old self.new tuple k) }
        ensures room { IfOk result (λ k. refusal_of limit self.old ≡ None) }
        ensures cause { IfErr result (λ r. r ≡ unwrap_or (refusal_of limit self.old) Memory) }
        ensures err { OnErr result (IsSame self.old self.new) }
    {
        if let Some(refusal) = self.get().refusal(limit) {
            return Err(refusal);
        }
        match Rc::make_mut(&mut self.relation) {
            Ok(relation) => relation.push(limit, tuple),
            Err(_) => Err(Refusal::Memory),
        }
    }

    /// Takes the tuple of the number out of the relation. Where others share the relation, it is taken out of a copy.
    ///
    /// # Errors
    /// Out of memory; all but the index is as it was then.
    pub fn remove(&mut self, number: u64) -> Result<(), NoMemory>
        requires numbers { AreUpTo self.old.inserts self.old.tuples.entries }
        requires present { list_any (λ t. t.0 == number) self.old.tuples.entries ≡ true }
        ensures ok { OnOk result (Removes self.old self.new number) }
        ensures err { OnErr result (IsSame self.old self.new) }
    {
        let relation = Rc::make_mut(&mut self.relation)?;
        relation.remove(number)
    }
}
