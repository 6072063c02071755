//! What a catalogue is asked. Only look-ups in windows and copies allocate.
ghost use Rattle.std.specs.Prelude.{◌≡◌, ◌≤◌, ◌<◌, ◌+◌, true, false, Some, IfOk, IfSome, is_none, length, map};
ghost use Rattle.std.specs.List.{AllByRecursion};
ghost use Rattle.std.specs.Map.{lookup};
ghost use Rattle.std.specs.Option.{option_map};
ghost use Rattle.std.specs.Str.{bytes_eq};

use super::Catalogue;
use crate::mentions::mentioned;
use crate::table::{heading_of, relation_of, view_of};
use ded_model::command::Refusal;
use ded_model::formula::Formula;
use ded_model::goal::Goal;
use ded_model::memory::NoMemory;
use ded_model::name::{Heading, Name};
use ded_model::steps::Steps;
use ded_packed::Packed;
use ded_ranges::Window;
use std::alloc::Global;
use std::collections::BTreeMap;
use std::sync::ledger::Ledger;

impl Catalogue {
    ghost use Rattle.ded_model.specs.Catalogue.{entry_name};
    ghost use Rattle.ded_model.specs.Form.{form};
    ghost use Rattle.ded_model.specs.Goal.{goal_form};
    ghost use Rattle.ded_model.specs.Known.{IsWellFormed};
    ghost use Rattle.ded_model.specs.Logic.{some_atom};
    ghost use Rattle.ded_model.specs.LongRows.{is_long_atom};
    ghost use Rattle.ded_model.specs.Plain.{IsPlain};
    ghost use Rattle.ded_model.specs.ShortRows.{HasShortRows};
    ghost use Rattle.ded_model.specs.Slotted.{goal_of};
    ghost use Rattle.ded_sorts.specs.Causes.{insert_refusal, is_relation_with};
    ghost use Rattle.ded_model.specs.Entries.{known, entry_of, relation_in, view_in};
    ghost use Rattle.ded_relation.specs.Lookups.{IsLookup, HasReaches, most_reads};
    ghost use Rattle.ded_catalog.specs.Mentions.{AreMentions};
    ghost use Rattle.ded_relation.specs.Nearby.{numbered, AreFound};
    ghost use Rattle.ded_relation.specs.Relations.{Relation};
    ghost use Rattle.ded_catalog.specs.State.{catalogue_of, relation_at};

    /// Every catalogue is well formed: each entry has a new name, the tuples of a relation are normal, over its columns
    /// and numbered in ascending order, and each view is accepted over the entries before it. It does nothing.
    pub fn formed(&self)
        ensures { IsWellFormed (catalogue_of self.now) }
    {
        let _ = &self.names; // for its invariant
    }

    /// Every view has short rows: each sum of its formula has each name once, the two sides of each comparison are over
    /// one denominator, and no row of it has a number above 2^63 - 1 in magnitude. It does nothing.
    pub fn short(&self)
        ensures { AllByRecursion HasShortRows (catalogue_of self.now).entries }
    {
        let _ = &self.names; // for its invariant
    }

    /// The heading of a relation or a view. None exactly where no entry has the name.
    pub fn heading(&self, name: &Name) -> Option<&Heading>
        ensures { option_map (λ h. h.now) result ≡ option_map (λ k. k.columns)
            (known (catalogue_of self.now) name.now) }
    {
        heading_of(&self.names, name)
    }

    /// The tuples of a relation by their numbers, in ascending order. None exactly where the name is no relation.
    pub fn stored(&self, name: &Name) -> Option<&BTreeMap<u32, Packed>>
        ensures { option_map (λ ts. ts.now.entries) result
            ≡ relation_in (entry_of (catalogue_of self.now).entries name.now) }
    {
        match relation_of(&self.names, name) {
            Some(relation) => Some(relation.tuples()),
            None => None,
        }
    }

    /// The tuples of a relation that may hold in the window, with their numbers, in ascending order of these. All that
    /// hold somewhere in it are among them. None exactly where the name is no relation.
    ///
    /// Each node of a tree of reaches, each entry and each tuple that is looked at is a step, and so is each number
    /// that is found of no tuple. Keys of texts aren't counted. Where the relation has one column, and the window no
    /// texts and some limits, each of one term at most, that some values meet, the steps are at most 9 (2k + 2d + 1) d
    /// + k, and as many more as entries stand in no tree: k entries in whose reaches the limits may hold, and d binary
    /// digits of how many entries there are.
    ///
    /// # Errors
    /// Out of memory.
    pub fn look_up<'a, L: Ledger>(
        &'a self,
        alloc: Global,
        name: &Name,
        window: &Window,
        steps: &mut Steps<L>,
    ) -> Result<Option<Vec<(u32, &'a Packed)>>, NoMemory>
        ensures found { IfOk result (λ found. AreFound window.now (option_map (λ v. numbered v.items) found)
            (relation_in (entry_of (catalogue_of self.now).entries name.now))) }
        ensures steps { (r : Relation) → relation_at (lookup (bytes_eq name.now) self.now.names) ≡ Some r
            → IsLookup window.now r → steps.new ≤ steps.old + most_reads window.now r }
        ensures read { IfOk result (λ found. IfSome found (λ ts. steps.old + length ts.items ≤ steps.new)) }
    {
        match relation_of(&self.names, name) {
            Some(relation) => Ok(Some(relation.near(alloc, window, steps)?)),
            None => Ok(None),
        }
    }

    /// Each tuple of a relation has an entry in its index, with its number and a reach that contains its points, and
    /// where the relation has one column, all entries there are segments. It does nothing.
    pub fn indexed(&self, name: &Name)
        ensures { (r : Relation) → relation_at (lookup (bytes_eq name.now) self.now.names) ≡ Some r → HasReaches r }
    {
        if let Some(relation) = relation_of(&self.names, name) {
            relation.indexed();
        }
    }

    /// The goal of a view's formula. None exactly where the name is no view.
    pub fn goal(&self, name: &Name) -> Option<&Goal>
        ensures { option_map (λ g. goal_form g.now) result
            ≡ option_map (λ v. goal_of v.0 v.1) (view_in (entry_of (catalogue_of self.now).entries name.now)) }
    {
        match view_of(&self.names, name) {
            Some(view) => Some(&view.goal),
            None => None,
        }
    }

    /// The formula of a view as written. None exactly where the name is no view. Each sum of it has each name once, the
    /// two sides of each comparison are over one denominator, and no row of it has a number above 2^63 - 1 in
    /// magnitude.
    pub fn formula(&self, name: &Name) -> Option<&Formula>
        ensures value { option_map (λ f. form f.now) result
            ≡ option_map (λ v. v.1) (view_in (entry_of (catalogue_of self.now).entries name.now)) }
        ensures plain { IfSome result (λ f. IsPlain (form f.now)) }
        ensures short { IfSome result (λ f. some_atom is_long_atom (form f.now) ≡ false) }
    {
        match view_of(&self.names, name) {
            Some(view) => Some(&view.formula),
            None => None,
        }
    }

    /// The names that a view's formula speaks of, each once; a closure or an interior counts by the name that it is
    /// made of. None exactly where the name is no view. It does not allocate.
    pub fn mentions(&self, name: &Name) -> Option<&[Name]>
        ensures none { is_none result ≡ is_none (view_in (entry_of (catalogue_of self.now).entries name.now)) }
        ensures mentions { IfSome result (λ ns. IfSome (view_in (entry_of (catalogue_of self.now).entries name.now))
            (λ v. AreMentions ns.now v.1)) }
    {
        match view_of(&self.names, name) {
            Some(view) => Some(view.mentions.as_slice()),
            None => None,
        }
    }

    /// The names that a formula speaks of, each once; a closure or an interior counts by the name that it is made of.
    ///
    /// # Errors
    /// Out of memory.
    pub fn spoken_names(&self, formula: &Formula) -> Result<Vec<Name>, NoMemory>
        ensures { IfOk result (λ ns. AreMentions ns.items (form formula.now)) }
    {
        mentioned(self.names.alloc(), self.names.hashing(), formula)
    }

    /// The names of the entries, in order of definition.
    ///
    /// # Errors
    /// Out of memory.
    pub fn names(&self, alloc: Global) -> Result<Vec<&Name>, NoMemory>
        ensures { IfOk result (λ ns. map (λ n. n.now) ns.items ≡ map entry_name (catalogue_of self.now).entries) }
    {
        self.names.names(alloc)
    }

    /// Why an insert into the relation would be refused, whatever the tuple: `Full` or `Spent`. None where it would be
    /// refused only for running out of memory.
    pub fn refuses(&self, name: &Name) -> Option<Refusal>
        requires { is_relation_with (known (catalogue_of self.now) name.now) ≡ true }
        ensures { result ≡ insert_refusal (catalogue_of self.now) name.now }
    {
        match relation_of(&self.names, name) {
            Some(relation) => relation.refusal(self.limit),
            None => unreachable!(),
        }
    }

    /// A catalogue that stands for the same.
    ///
    /// # Errors
    /// Out of memory.
    pub fn copy(&self) -> Result<Catalogue, NoMemory>
        ensures copied { IfOk result (λ c. catalogue_of c ≡ catalogue_of self.now) }
        ensures hashed { IfOk result (λ c. c.hashing ≡ self.now.hashing) }
    {
        Ok(Catalogue {
            limit: self.limit,
            names: self.names.copy()?,
        })
    }
}
