//! What stands under a name.
ghost use Rattle.std.specs.Prelude.{◌≡◌, ◌==◌, true, None, IfOk, IfErr};
ghost use Rattle.std.specs.List.{list_any};
ghost use Rattle.std.specs.Option.{unwrap_or};
ghost use Rattle.ded_model.specs.declared.command.Refusal.TheVariants.{Memory};

use ded_model::command::Refusal;
use ded_model::formula::Formula;
use ded_model::goal::Goal;
use ded_model::memory::NoMemory;
use ded_model::name::{Heading, Name};
use ded_model::tuple::Tuple;
use ded_relation::SharedRelation;
use std::alloc::AllocError;

/// A view: its heading, its formula as written, the goal of that, its level, and the names that the formula speaks of,
/// each once.
#[derive(Drop)]
pub(crate) struct View {
    pub(crate) heading: Heading,
    pub(crate) formula: Formula,
    pub(crate) goal: Goal,
    pub(crate) level: u32,
    pub(crate) mentions: Vec<Name>,
}

/// What stands under a name.
#[derive(Drop)]
pub(crate) enum Stored {
    Relation(SharedRelation),
    View(View),
}

impl Stored {
    ghost use Rattle.ded_catalog.specs.Changed.{AreRelations};
    ghost use Rattle.ded_relation.specs.Tuples.{AreUpTo, refusal_of, IsSame, Pushes, Removes};

    /// Inserts a tuple into the relation, and gives the tuple's number.
    ///
    /// # Errors
    /// `Full` or `Spent` as [`Relation::refusal`](ded_relation::Relation::refusal) says, otherwise out of memory. All
    /// but the index is as it was then.
    pub(crate) fn insert(&mut self, limit: u32, tuple: Tuple) -> Result<u32, Refusal>
        requires { AreRelations self.old self.old (λ old new. AreUpTo old.inserts old.tuples.entries) }
        ensures ok { IfOk result (λ k. AreRelations self.old self.new (λ old new. Pushes old new tuple k
            × (refusal_of limit old ≡ None))) }
        ensures err { IfErr result (λ r. AreRelations self.old self.new (λ old new. IsSame old new
            × (r ≡ unwrap_or (refusal_of limit old) Memory))) }
    {
        match self {
            Stored::Relation(relation) => relation.push(limit, tuple),
            Stored::View(_) => unreachable!(),
        }
    }

    /// Deletes the tuple of the number from the relation.
    ///
    /// # Errors
    /// Out of memory; all but the index is as it was then.
    pub(crate) fn delete(&mut self, number: u64) -> Result<(), NoMemory>
        requires { AreRelations self.old self.old (λ old new. AreUpTo old.inserts old.tuples.entries
            × (list_any (λ t. t.0 == number) old.tuples.entries ≡ true)) }
        ensures ok { IfOk result (λ _. AreRelations self.old self.new (λ old new. Removes old new number)) }
        ensures err { IfErr result (λ _. AreRelations self.old self.new (λ old new. IsSame old new)) }
    {
        match self {
            Stored::Relation(relation) => relation.remove(number),
            Stored::View(_) => unreachable!(),
        }
    }
}

impl Clone for Stored {
    ghost use Rattle.ded_catalog.specs.Copies.{IsCopy};

    ghost is_clone = { IsCopy };

    fn clone(&self) -> Result<Stored, AllocError> {
        match self {
            Stored::Relation(relation) => Ok(Stored::Relation(relation.share()?)),
            Stored::View(view) => Ok(Stored::View(View {
                level: view.level,
                heading: view.heading.copy()?,
                mentions: view.mentions.clone()?,
                formula: view.formula.copy()?,
                goal: view.goal.copy()?,
            })),
        }
    }
}
