//! Relations that are given by name.
ghost use Rattle.std.specs.Prelude.{◌≡◌, ◌≤◌, ◌+◌, ◌++◌, ◌∷◌, [], false, length, take, OnOk, OnErr};
ghost use Rattle.std.specs.Option.{option_map};

use crate::evaluation::Relations;
use crate::lending::near_among;
use ded_model::memory::NoMemory;
use ded_model::name::{Heading, Name};
use ded_model::steps::Steps;
use ded_model::tuple::{Tuple, Tuples};
use ded_packed::{Lent, lend};
use ded_ranges::Window;
use std::alloc::Global;
use std::marker::Model;
use std::sync::ledger::Ledger;

/// A relation under its name, with its heading and its tuples.
#[derive(Drop)]
pub struct GivenRelation {
    pub name: Name,
    pub heading: Heading,
    pub tuples: Tuples,
}

/// Relations of distinct names, in the order in which they were given. Contracts see the list.
#[derive(Drop)]
pub struct Given {
    relations: Vec<GivenRelation>,
}

impl Model for Given {
    ghost use Rattle.std.specs.Prelude.{List};
    ghost use Rattle.ded_algebra.specs.declared.given.GivenRelation.{GivenRelation};

    ghost Value = { List GivenRelation };

    ghost view = { λ g. g.relations.items };

    ghost use Rattle.ded_algebra.specs.Given.{AreNamedApart};

    ghost invariant = { λ g. AreNamedApart g.relations.items };
}

impl Given {
    ghost use Rattle.ded_algebra.specs.Evaluation.{given_tuples};
    ghost use Rattle.ded_algebra.specs.Given.{given_catalogue, has_name, given_under, without_name, IsPlace};

    /// No relations. It does not allocate.
    pub fn new(alloc: Global) -> Given
        ensures { result ≡ [] }
    {
        Given {
            relations: Vec::new(alloc),
        }
    }

    /// One relation more, of a name that isn't given yet.
    ///
    /// # Errors
    /// Out of memory; nothing is changed then.
    pub fn add(&mut self, relation: GivenRelation) -> Result<(), NoMemory>
        requires new { has_name relation.name self.old ≡ false }
        ensures ok { OnOk result (self.new ≡ self.old ++ relation ∷ []) }
        ensures err { OnErr result (self.new ≡ self.old) }
    {
        self.relations.push(relation)?;
        Ok(())
    }

    /// How many relations there are.
    pub fn count(&self) -> usize
        ensures { result ≡ length self.now }
    {
        self.relations.len()
    }

    /// Keeps the first `count` relations alone. It does not allocate.
    pub fn keep_first(&mut self, count: usize)
        ensures { self.new ≡ take count self.old }
    {
        self.relations.truncate(count);
    }

    /// Takes the relation of the name out. The others keep their order. It does not allocate.
    pub fn take(&mut self, name: &Name) -> Option<GivenRelation>
        ensures taken { result ≡ given_under name.now self.old }
        ensures left { self.new ≡ without_name name.now self.old }
    {
        match self.place(name) {
            Some(place) => Some(self.relations.remove(place)),
            None => None,
        }
    }

    /// Whether a relation of the name is given. It does not allocate.
    pub fn has(&self, name: &Name) -> bool
        ensures { result ≡ has_name name.now self.now }
    {
        self.place(name).is_some()
    }

    /// The tuples of the relation of the name, none exactly where it isn't given. It does not allocate.
    pub fn tuples(&self, name: &Name) -> Option<&[Tuple]>
        ensures { option_map (λ ts. ts.now) result ≡ given_tuples (given_catalogue self.now) name.now }
    {
        for relation in &self.relations {
            if relation.name == *name {
                return Some(&relation.tuples.list);
            }
        }
        None
    }

    /// The place of the relation of the name.
    fn place(&self, name: &Name) -> Option<usize>
        ensures { IsPlace name.now self.now result }
    {
        for i in 0..self.relations.len() {
            if self.relations[i].name == *name {
                return Some(i);
            }
        }
        None
    }
}

impl Relations for Given {
    ghost use Rattle.ded_algebra.specs.Evaluation.{given_tuples, count_of};
    ghost use Rattle.ded_algebra.specs.Given.{given_catalogue};

    ghost catalogue = { given_catalogue };

    ghost indexed = { λ g n. false };

    ghost reads = { λ g n w before after. after ≤ before + count_of (given_tuples (given_catalogue g) n) };

    fn formed(&self) {
        let _ = &self.relations; // for its invariant
    }

    fn is_indexed(&self, _: &Name) -> bool {
        false
    }

    fn near<L: Ledger>(
        &self,
        alloc: Global,
        name: &Name,
        window: &Window,
        steps: &mut Steps<L>,
    ) -> Result<Option<Vec<Lent<'_>>>, NoMemory> {
        match self.tuples(name) {
            Some(tuples) => Ok(Some(near_among(alloc, tuples, window, steps)?)),
            None => Ok(None),
        }
    }

    fn all(&self, alloc: Global, name: &Name) -> Result<Option<Vec<Lent<'_>>>, NoMemory> {
        match self.tuples(name) {
            Some(tuples) => Ok(Some(lend(alloc, tuples)?)),
            None => Ok(None),
        }
    }
}
