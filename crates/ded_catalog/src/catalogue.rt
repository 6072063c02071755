//! Catalogues.
ghost use Rattle.std.specs.Prelude.{◌≡◌, ◌==◌, ◌≤◌, true, false, Some, None, [], length, is_some, IsOk, IfOk, IfErr};
ghost use Rattle.std.specs.Prelude.{OnOk, OnErr};
ghost use Rattle.std.specs.List.{list_any};

mod names;
mod reads;

use crate::stored::{Stored, View};
use crate::table::{Table, add, delete_from, insert_into, spoken, take_out};
use ded_model::command::Refusal;
use ded_model::formula::Formula;
use ded_model::goal::Goal;
use ded_model::memory::NoMemory;
use ded_model::name::{Heading, Name};
use ded_model::tuple::Tuple;
use ded_relation::{Relation, SharedRelation};
use std::alloc::Global;
use std::marker::Model;

/// Relations and views in order of definition, and the limit of tuples of a relation. Contracts see the catalogue that
/// it stands for.
#[derive(Drop)]
pub struct Catalogue {
    limit: u32,
    names: Table,
}

impl Model for Catalogue {
    ghost use Rattle.std.specs.Coded.{codes};
    ghost use Rattle.ded_catalog.specs.contracts.stored.Stored as stored;
    ghost use Rattle.ded_catalog.specs.State.{Table};

    ghost Value = { Table };

    ghost coded = { Prim.hlevel (stored.the_row.coded, codes) };

    ghost use Rattle.ded_catalog.specs.Conditions.{IsKept};

    ghost view = { λ c. record { limit = c.limit; names = c.names.entries; hashing = c.names.hashing } };

    ghost invariant = { λ c. IsKept c.limit c.names.entries };
}

impl Catalogue {
    ghost use Rattle.std.specs.Option.{unwrap_or};
    ghost use Rattle.ded_model.specs.declared.command.Refusal.TheVariants.{Memory};
    ghost use Rattle.ded_model.specs.Catalogue.{relation, view};
    ghost use Rattle.ded_model.specs.Form.{form};
    ghost use Rattle.ded_model.specs.Goal.{goal_form};
    ghost use Rattle.ded_model.specs.Known.{IsAccepted, IsNewName, IsTupleOver, level_of};
    ghost use Rattle.ded_model.specs.Logic.{some_atom};
    ghost use Rattle.ded_model.specs.LongRows.{is_long_atom};
    ghost use Rattle.ded_model.specs.Plain.{IsPlain};
    ghost use Rattle.ded_model.specs.Slotted.{goal_of};
    ghost use Rattle.ded_model.specs.Width.{tuple_length};
    ghost use Rattle.ded_sorts.specs.Causes.{insert_refusal, is_relation_with};
    ghost use Rattle.ded_sorts.specs.Changes.{AddsEntry, Inserts, Deletes, DropsEntry};
    ghost use Rattle.ded_model.specs.Entries.{known, tuples_in, columns_in, entry_uses};
    ghost use Rattle.std.specs.Map.{lookup};
    ghost use Rattle.std.specs.Str.{bytes_eq};
    ghost use Rattle.ded_relation.specs.Hashing.{keyed};
    ghost use Rattle.ded_relation.specs.Relations.{Relation};
    ghost use Rattle.ded_catalog.specs.State.{catalogue_of, relation_at};

    /// A catalogue without entries, whose relations may have `limit` tuples, 1 to 1,000,000. It does not allocate yet.
    ///
    /// # Errors
    /// None: memory is allocated for the first name that is defined.
    pub fn new(alloc: Global, limit: u32) -> Result<Catalogue, NoMemory>
        requires low { 1 ≤ limit }
        requires high { limit ≤ 1000000 }
        ensures made { IsOk result }
        ensures empty { IfOk result (λ c. catalogue_of c ≡ record { limit = limit; entries = [] }) }
    {
        Ok(Catalogue::hashed_with(alloc, limit, (0, 0)))
    }

    /// A catalogue without entries, whose relations may have `limit` tuples, 1 to 1,000,000, and whose names are hashed
    /// with the keys. Where names are untrusted, draw the keys at random: then nobody can choose names that are slow to
    /// find.
    pub fn hashed_with(alloc: Global, limit: u32, keys: (u64, u64)) -> Catalogue
        requires low { 1 ≤ limit }
        requires high { limit ≤ 1000000 }
        ensures empty { catalogue_of result ≡ record { limit = limit; entries = [] } }
        ensures hashed { result.hashing ≡ keyed keys }
    {
        Catalogue {
            limit,
            names: Table::new(alloc, keys),
        }
    }

    /// Defines a relation without tuples, of at most 16 columns, under a new name that no closure or interior has.
    ///
    /// # Errors
    /// Out of memory; nothing is changed then.
    pub fn define(&mut self, name: Name, heading: Heading) -> Result<(), NoMemory>
        requires new { IsNewName (known (catalogue_of self.old)) name }
        requires few { length heading ≤ 16 }
        ensures ok { OnOk result (AddsEntry (catalogue_of self.old) (catalogue_of self.new)
            (relation name heading 0 [])) }
        ensures err { OnErr result (catalogue_of self.new ≡ catalogue_of self.old) }
        ensures hashed { self.new.hashing ≡ self.old.hashing }
    {
        self.define_at(name, heading, 0)
    }

    /// Defines a relation without tuples, of at most 16 columns, under a new name that no closure or interior has,
    /// which counts as one that has accepted `inserts` inserts.
    ///
    /// # Errors
    /// Out of memory; nothing is changed then.
    pub fn define_at(&mut self, name: Name, heading: Heading, inserts: u32) -> Result<(), NoMemory>
        requires new { IsNewName (known (catalogue_of self.old)) name }
        requires few { length heading ≤ 16 }
        ensures ok { OnOk result (AddsEntry (catalogue_of self.old) (catalogue_of self.new)
            (relation name heading inserts [])) }
        ensures err { OnErr result (catalogue_of self.new ≡ catalogue_of self.old) }
        ensures hashed { self.new.hashing ≡ self.old.hashing }
    {
        let alloc = self.names.alloc();
        let relation = Relation::new(alloc, heading, inserts, self.names.hashing());
        let stored = Stored::Relation(SharedRelation::new(alloc, relation)?);
        add(&mut self.names, name, stored)
    }

    /// Inserts a tuple into the relation of the name, and gives the tuple's number. At most 32 of the reaches in the
    /// relation's index stand in no tree then.
    ///
    /// # Errors
    /// `Full` exactly where the relation has as many tuples as the limit allows, else `Spent` exactly where it has
    /// accepted 4,294,967,295 inserts, else `Memory`. A refused insert changes nothing, but after one that finds no
    /// memory any number of the reaches may stand in no tree.
    pub fn insert(&mut self, name: &Name, t: Tuple) -> Result<u32, Refusal>
        requires relation { is_relation_with (known (catalogue_of self.old) name.now) ≡ true }
        requires over { IsTupleOver (columns_in (catalogue_of self.old) name.now) t }
        requires short { tuple_length t ≤ 63 }
        ensures ok { IfOk result (λ k. Inserts (catalogue_of self.old) (catalogue_of self.new) name.now t k) }
        ensures settled { IfOk result (λ k. (r : Relation)
            → relation_at (lookup (bytes_eq name.now) self.new.names) ≡ Some r → r.reaches.loose ≤ 32) }
        ensures room { IfOk result (λ k. insert_refusal (catalogue_of self.old) name.now ≡ None) }
        ensures cause { IfErr result (λ r. r ≡ unwrap_or (insert_refusal (catalogue_of self.old) name.now) Memory) }
        ensures err { OnErr result (catalogue_of self.new ≡ catalogue_of self.old) }
        ensures hashed { self.new.hashing ≡ self.old.hashing }
    {
        insert_into(&mut self.names, name, self.limit, t)
    }

    /// Deletes the tuple of the number, which has to be there, from the relation of the name. It allocates only where
    /// another catalogue shares the relation.
    ///
    /// # Errors
    /// Out of memory; nothing is changed then.
    pub fn delete(&mut self, name: &Name, number: u64) -> Result<(), NoMemory>
        requires { list_any (λ t. t.0 == number) (tuples_in (catalogue_of self.old) name.now) ≡ true }
        ensures ok { OnOk result (Deletes (catalogue_of self.old) (catalogue_of self.new) name.now number) }
        ensures err { OnErr result (catalogue_of self.new ≡ catalogue_of self.old) }
        ensures hashed { self.new.hashing ≡ self.old.hashing }
    {
        delete_from(&mut self.names, name, number)
    }

    /// Defines a view under a new name that no closure or interior has: its formula as written, and the goal of that.
    /// Each sum of the formula has each name once, the two sides of each comparison are over one denominator, and no
    /// row of it has a number above 2^63 - 1 in magnitude.
    ///
    /// # Errors
    /// Out of memory; nothing is changed then.
    pub fn define_view(
        &mut self,
        name: Name,
        heading: Heading,
        f: Formula,
        g: Goal,
    ) -> Result<(), NoMemory>
        requires new { IsNewName (known (catalogue_of self.old)) name }
        requires accepted { IsAccepted (known (catalogue_of self.old)) heading (form f) }
        requires level { level_of (known (catalogue_of self.old)) (form f) ≤ 16 }
        requires plain { IsPlain (form f) }
        requires short { some_atom is_long_atom (form f) ≡ false }
        requires goal { goal_form g ≡ goal_of heading (form f) }
        ensures ok { OnOk result (AddsEntry (catalogue_of self.old) (catalogue_of self.new)
            (view name heading (form f))) }
        ensures err { OnErr result (catalogue_of self.new ≡ catalogue_of self.old) }
        ensures hashed { self.new.hashing ≡ self.old.hashing }
    {
        match spoken(&self.names, &f) {
            Ok((below, mentions)) => {
                let view = Stored::View(View {
                    heading,
                    formula: f,
                    goal: g,
                    level: below + 1,
                    mentions,
                });
                add(&mut self.names, name, view)
            }
            Err(error) => {
                drop(f);
                drop(g);
                Err(error)
            }
        }
    }

    /// Drops a name that is defined and that no view speaks of. The others keep their order. It does not allocate.
    pub fn drop_name(&mut self, name: &Name)
        requires defined { is_some (known (catalogue_of self.old) name.now) ≡ true }
        requires unused { list_any (entry_uses name.now) (catalogue_of self.old).entries ≡ false }
        ensures dropped { DropsEntry (catalogue_of self.old) (catalogue_of self.new) name.now }
        ensures hashed { self.new.hashing ≡ self.old.hashing }
    {
        take_out(&mut self.names, name)
    }
}
