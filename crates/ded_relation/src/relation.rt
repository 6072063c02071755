//! Relations: their tuples, found by number.
ghost use Rattle.std.specs.Prelude.{◌≡◌, ◌==◌, ◌+◌, ◌<◌, ◌≤◌, ◌^◌, ◌++◌, ◌∷◌, [], length, true, Some, None, IfOk};
ghost use Rattle.std.specs.Prelude.{IfErr, OnOk, OnErr};
ghost use Rattle.std.specs.BTreeMap.{is_at};
ghost use Rattle.std.specs.List.{list_any};
ghost use Rattle.std.specs.Map.{lookup};
ghost use Rattle.std.specs.Option.{unwrap_or};
ghost use Rattle.std.specs.Ordering.{nat_cmp};
ghost use Rattle.ded_model.specs.declared.command.Refusal.TheVariants.{Memory};
ghost use Rattle.ded_relation.specs.Lookups.{IsLookup, HasReaches, most_reads};
ghost use Rattle.ded_relation.specs.Nearby.{numbered, AreNear};
ghost use Rattle.ded_relation.specs.Relations.{IsIndexOf};
ghost use Rattle.ded_relation.specs.Tuples.{AreUpTo, refusal_of, IsSame, Pushes, Removes};

use crate::finding::{listed, looked_up, picked, sifted};
use crate::hashing::NameHashing;
use crate::index::Index;
use ded_model::command::Refusal;
use ded_model::limits;
use ded_model::memory::NoMemory;
use ded_model::name::Heading;
use ded_model::steps::Steps;
use ded_model::tuple::Tuple;
use ded_packed::Packed;
use ded_ranges::{Sieve, Window};
use std::alloc::{AllocError, Global};
use std::collections::BTreeMap;
use std::marker::Model;
use std::sync::ledger::Ledger;

/// A relation: its heading, how many inserts it has accepted, its tuples by their numbers, packed, and an index of
/// these, in which each tuple has its reach under its number, and the keys of its texts. Contracts see all but the
/// keys. Of the reaches they see the entries, and how many of them stand in no tree.
#[derive(Drop)]
pub struct Relation {
    pub(crate) heading: Heading,
    pub(crate) inserts: u32,
    pub(crate) tuples: BTreeMap<u32, Packed>,
    pub(crate) index: Index,
}

impl Model for Relation {
    ghost use Rattle.ded_relation.specs.Relations.{Relation, IsIndexOf};

    ghost Value = { Relation };

    ghost view = { λ r. record {
      heading = r.heading;
      inserts = r.inserts;
      tuples = record
          { entries = r.tuples.entries };
      reaches = r.index.hulls;
    } };

    ghost invariant = { λ r. IsIndexOf r.heading r.index r.tuples.entries };
}

impl Relation {
    /// A relation without tuples, which counts as one that has accepted so many inserts; `hashing` is how the texts of
    /// its tuples will be hashed.
    pub fn new(alloc: Global, heading: Heading, inserts: u32, hashing: NameHashing) -> Relation
        ensures { result
            ≡ record {
              heading = heading;
              inserts = inserts;
              tuples = record { entries = [] };
              reaches = record
                  { entries = []; loose = 0 };
            } }
    {
        Relation {
            heading,
            inserts,
            tuples: BTreeMap::new(alloc),
            index: Index::new(alloc, hashing),
        }
    }

    /// The columns.
    pub fn heading(&self) -> &Heading
        ensures { result.now ≡ self.now.heading }
    {
        &self.heading
    }

    /// The tuples by their numbers, in ascending order.
    pub fn tuples(&self) -> &BTreeMap<u32, Packed>
        ensures { result.now.entries ≡ self.now.tuples.entries }
    {
        &self.tuples
    }

    /// Why an insert is refused: the relation is full, or else it has accepted all inserts that have a number.
    pub fn refusal(&self, limit: u32) -> Option<Refusal>
        ensures { result ≡ refusal_of limit self.now }
    {
        if self.tuples.len() >= limit as usize {
            Some(Refusal::Full)
        } else if self.inserts == limits::INSERTS {
            Some(Refusal::Spent)
        } else {
            None
        }
    }

    /// Takes one tuple more, and gives its number.
    ///
    /// # Errors
    /// `Full` or `Spent` as [`Relation::refusal`] says, otherwise out of memory. All but the index is as it was then.
    pub(crate) fn push(&mut self, limit: u32, tuple: Tuple) -> Result<u32, Refusal>
        requires { AreUpTo self.old.inserts self.old.tuples.entries }
        ensures ok { IfOk result (λ k. Pushes self.old self.new tuple k) }
        ensures room { IfOk result (λ k. refusal_of limit self.old ≡ None) }
        ensures cause { IfErr result (λ r. r ≡ unwrap_or (refusal_of limit self.old) Memory) }
        ensures err { OnErr result (IsSame self.old self.new) }
    {
        if let Some(refusal) = self.refusal(limit) {
            return Err(refusal);
        }
        match push_next(
            &mut self.tuples,
            &mut self.index,
            &self.heading,
            self.inserts,
            &tuple,
        ) {
            Ok(number) => {
                self.inserts = number;
                Ok(number)
            }
            Err(_) => Err(Refusal::Memory),
        }
    }

    /// Whether a tuple of the relation has the number.
    pub fn has(&self, number: u64) -> bool
        requires { AreUpTo self.now.inserts self.now.tuples.entries }
        ensures { result ≡ list_any (λ t. t.0 == number) self.now.tuples.entries }
    {
        number <= u64::from(self.inserts) && self.tuples.contains_key(&(number as u32))
    }

    /// Takes the tuple of the number out of the relation.
    ///
    /// # Errors
    /// Out of memory; nothing is changed then.
    pub(crate) fn remove(&mut self, number: u64) -> Result<(), NoMemory>
        requires numbers { AreUpTo self.old.inserts self.old.tuples.entries }
        requires present { list_any (λ t. t.0 == number) self.old.tuples.entries ≡ true }
        ensures ok { OnOk result (Removes self.old self.new number) }
        ensures err { OnErr result (IsSame self.old self.new) }
    {
        prove!(number <= u64::from(self.inserts));
        let tuple = self.told(number as u32)?;
        self.tuples.remove(&(number as u32));
        self.index.remove(&self.heading, number as u32, &tuple);
        self.index.prune(&self.tuples);
        Ok(())
    }

    /// The tuple of the number, which is there.
    ///
    /// # Errors
    /// Out of memory.
    fn told(&self, number: u32) -> Result<Tuple, NoMemory>
        requires { list_any (λ t. t.0 == number) self.now.tuples.entries ≡ true }
        ensures { IfOk result (λ t. lookup (is_at (nat_cmp number)) self.now.tuples.entries ≡ Some t) }
    {
        let Some(packed) = self.tuples.get(&number) else {
            unreachable!()
        };
        packed.unpack(*self.heading.columns.allocator())
    }

    /// Each tuple has its reach in the index under its number, and where there is one column, all reaches there are
    /// segments. It does nothing.
    pub fn indexed(&self)
        ensures { HasReaches self.now }
    {
        let _ = &self.index; // for the invariant
    }

    /// The tuples that may hold in the window, with their numbers, in ascending order of these. Each node of a tree of
    /// reaches, each entry and each tuple that is looked at is a step, and so is each number that is found of no tuple.
    /// Keys of texts aren't counted.
    ///
    /// # Errors
    /// Out of memory.
    pub fn near<'a, L: Ledger>(
        &'a self,
        alloc: Global,
        window: &Window,
        steps: &mut Steps<L>,
    ) -> Result<Vec<(u32, &'a Packed)>, NoMemory>
        ensures found { IfOk result (λ found. AreNear window.now (numbered found.items) self.now.tuples.entries) }
        ensures steps { IsLookup window.now self.now → steps.new ≤ steps.old + most_reads window.now self.now }
        ensures read { IfOk result (λ found. steps.old + length found.items ≤ steps.new) }
    {
        if window.limits.is_empty() && window.texts.is_empty() {
            return listed(alloc, &self.tuples, steps);
        }
        let count = self.tuples.len(); // for the order of the numbers too
        let Some(numbers) = self.index.find(alloc, &self.heading, window, count, steps)? else {
            return sifted(alloc, &self.tuples, &Sieve::new(alloc, window)?, steps);
        };
        if numbers.len() <= 1 || window.limits.is_empty() {
            // whoever looks at them sees as soon whether they hold
            return picked(alloc, &self.tuples, &numbers, steps);
        }
        looked_up(
            alloc,
            &self.tuples,
            &numbers,
            &Sieve::new(alloc, window)?,
            steps,
        )
    }
}

/// Puts the tuple, over the columns, under the number after the last one, and into the index.
///
/// # Errors
/// Out of memory; the tuples stay as they are then, and the index is one of them, maybe with one reach more.
fn push_next(
    tuples: &mut BTreeMap<u32, Packed>,
    index: &mut Index,
    heading: &Heading,
    last: u32,
    tuple: &Tuple,
) -> Result<u32, NoMemory>
    requires room { last + 1 < 2 ^ 32 }
    requires numbers { AreUpTo last tuples.old.entries }
    requires index { IsIndexOf heading.now index.old tuples.old.entries }
    ensures number { IfOk result (λ k. k ≡ last + 1) }
    ensures pushed { IfOk result (λ k. tuples.new.entries ≡ tuples.old.entries ++ (k, tuple.now) ∷ []) }
    ensures settled { IfOk result (λ k. index.new.hulls.loose ≤ 32) }
    ensures unchanged { OnErr result (tuples.new.entries ≡ tuples.old.entries) }
    ensures index { IsIndexOf heading.now index.new tuples.new.entries }
{
    let number = last + 1;
    let packed = Packed::pack(*heading.columns.allocator(), tuple)?;
    index.insert(heading, number, tuple)?;
    match tuples.insert(number, packed) {
        Ok(_) => Ok(number),
        Err(_) => {
            index.remove(heading, number, tuple);
            Err(AllocError)
        }
    }
}
