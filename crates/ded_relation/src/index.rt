//! An index of the tuples of a relation.
ghost use Rattle.std.specs.Prelude.{◌≡◌, ◌≤◌, ◌+◌, true, [], length, is_some, IfOk, IfSome, OnOk, OnErr};
ghost use Rattle.ded_hull.specs.Entries.{ids_in, most_steps};
ghost use Rattle.ded_hull.specs.Segments.{AreSegments};
ghost use Rattle.ded_relation.specs.Lookups.{IsAlong};
ghost use Rattle.ded_relation.specs.Relations.{IsCopied, IsIndexed, IsUndone, IsPruned, Finds};

use crate::ends::reach_of;
use crate::hashing::NameHashing;
use crate::texts::Texts;
use ded_hull::Hulls;
use ded_model::memory::NoMemory;
use ded_model::name::Heading;
use ded_model::steps::Steps;
use ded_model::tuple::Tuple;
use ded_packed::Packed;
use ded_ranges::Window;
use std::alloc::Global;
use std::collections::BTreeMap;
use std::sync::ledger::Ledger;

/// Up to how many tuples a text of a window may leave for these to be read at once, without asking the reaches by the
/// window's limits. Where it has no limits all tuples are read else, so a quarter of them may be left besides. So many
/// are sifted soon, but the number is a guess: no measurement of it is kept.
const MOST_BY_TEXT: usize = 64;

/// What is added to the number of tuples before half of the reaches is compared with it. To take out reaches makes the
/// trees anew, which costs as much as all that are left, and in a small relation a few deletes aren't worth that. No
/// measurement of it is kept either.
const UNPRUNED: usize = 64;

/// The tuples of a relation by their reaches, and by the texts that they fix. Reaches of deleted tuples stay until they
/// are more than the others: no tuple has their numbers, so what is found of them is passed over.
#[derive(Drop)]
pub(crate) struct Index {
    pub hulls: Hulls,
    pub texts: Texts,
}

impl Index {
    /// An index of no tuples; `hashing` is how their texts will be hashed.
    pub(crate) fn new(alloc: Global, hashing: NameHashing) -> Index
        ensures hulls { result.hulls ≡ record { entries = []; loose = 0 } }
        ensures texts { result.texts.set.keys ≡ [] }
    {
        Index {
            hulls: Hulls::new(alloc),
            texts: Texts::new(alloc, hashing),
        }
    }

    /// An index of the same tuples.
    ///
    /// # Errors
    /// Out of memory.
    pub(crate) fn copy(&self, alloc: Global) -> Result<Index, NoMemory>
        ensures { IfOk result (IsCopied self.now) }
    {
        Ok(Index {
            hulls: self.hulls.copy(alloc)?,
            texts: self.texts.copy()?,
        })
    }

    /// Adds a tuple over the columns under its number.
    ///
    /// # Errors
    /// Out of memory; nothing of the number is left then.
    pub(crate) fn insert(
        &mut self,
        heading: &Heading,
        number: u32,
        tuple: &Tuple,
    ) -> Result<(), NoMemory>
        ensures indexed { OnOk result (IsIndexed heading.now (number, tuple.now) self.old self.new) }
        ensures undone { OnErr result (IsUndone number self.old self.new) }
    {
        let added = self.add(heading, number, tuple);
        if added.is_err() {
            self.texts.remove(heading, number, tuple);
        }
        added
    }

    /// Adds a tuple over the columns under its number.
    ///
    /// # Errors
    /// Out of memory; some keys of it may be left then.
    fn add(&mut self, heading: &Heading, number: u32, tuple: &Tuple) -> Result<(), NoMemory>
        ensures indexed { OnOk result (IsIndexed heading.now (number, tuple.now) self.old self.new) }
        ensures undone { OnErr result (IsUndone number self.old self.new) }
    {
        self.texts.insert(heading, number, tuple)?;
        let reach = reach_of(tuple, heading.columns.len())?;
        self.hulls.insert(number, reach)
    }

    /// Takes out the texts of a tuple over the columns. It does not allocate.
    pub(crate) fn remove(&mut self, heading: &Heading, number: u32, tuple: &Tuple)
        ensures { IsUndone number self.old self.new }
    {
        self.texts.remove(heading, number, tuple);
    }

    /// Takes out the reaches under numbers that no tuple has, if they are more than the others and there is memory for
    /// it.
    pub(crate) fn prune(&mut self, tuples: &BTreeMap<u32, Packed>)
        ensures { IsPruned tuples.now.entries self.old self.new }
    {
        if self.hulls.count() / 2 > tuples.len().saturating_add(UNPRUNED) {
            let _ = self.hulls.retain(tuples);
        }
    }

    /// The numbers of the tuples over the columns that may hold in the window, ascending. None where the index doesn't
    /// tell them apart from the others. Each node of a tree of reaches and each entry that is looked at is a step. Keys
    /// of texts aren't counted.
    ///
    /// # Errors
    /// Out of memory.
    pub(crate) fn find<L: Ledger>(
        &self,
        alloc: Global,
        heading: &Heading,
        window: &Window,
        count: usize,
        steps: &mut Steps<L>,
    ) -> Result<Option<Vec<u32>>, NoMemory>
        ensures found { IfOk result (λ found. IfSome found (λ ids. Finds window.now heading.now self.now ids.items)) }
        ensures some { IsAlong window.now → IfOk result (λ found. is_some found ≡ true) }
        ensures count { IsAlong window.now → IfOk result
            (λ found. IfSome found (λ ids. length ids.items
            ≤ length (ids_in window.now.limits.items self.now.hulls.entries))) }
        ensures steps { IsAlong window.now → AreSegments self.now.hulls.entries
            → steps.new ≤ steps.old + most_steps window.now.limits.items self.now.hulls }
        ensures forward { steps.old ≤ steps.new }
    {
        let most = if window.limits.is_empty() {
            MOST_BY_TEXT + count / 4
        } else {
            MOST_BY_TEXT
        };
        if let Some(found) = self.texts.find(alloc, heading, &window.texts, most)? {
            return Ok(Some(found));
        }
        if window.limits.is_empty() {
            return Ok(None);
        }
        Ok(Some(self.hulls.look_up(alloc, &window.limits, steps)?))
    }
}
