//! Snapshots.
ghost use Rattle.std.specs.Prelude.{◌≡◌, ◌==◌, ◌+◌, ◌≤◌, true, None, is_some, IfOk, IfSome, length};
ghost use Rattle.std.specs.List.{list_any, AllByRecursion};
ghost use Rattle.std.specs.Option.{option_map};
ghost use Rattle.ded_model.specs.Entries.{entry_of, relation_in};
ghost use Rattle.ded_catalog.specs.State.{catalogue_of};

use crate::catalogue::Catalogue;
use crate::change::{PendingChange, left_of, with_inserted};
use ded_model::goal::Goal;
use ded_model::memory::NoMemory;
use ded_model::name::{Heading, Name};
use ded_model::steps::Steps;
use ded_model::tuple::Tuple;
use ded_packed::Lent;
use ded_ranges::Window;
use ded_relation::finding::all;
use std::alloc::Global;
use std::marker::Model;
use std::sync::ledger::Ledger;

/// A catalogue as it is, or as it will be when a tuple is inserted into a relation or deleted from one. It borrows the
/// catalogue, and copies nothing. Contracts see the catalogue that it stands for.
#[derive(Drop)]
pub struct Snapshot<'a> {
    catalogue: &'a Catalogue,
    change: PendingChange<'a>,
}

impl<'a> Model for Snapshot<'a> {
    ghost use Rattle.std.specs.Coded.{codes};
    ghost use Rattle.ded_catalog.specs.contracts.catalogue.Catalogue as below;
    ghost use Rattle.ded_catalog.specs.Snapshots.{Snapshot};

    ghost Value = { Snapshot };

    ghost coded = { Prim.hlevel (codes, below.the_row.coded) };

    ghost use Rattle.ded_catalog.specs.State.{catalogue_of};
    ghost use Rattle.ded_catalog.specs.Changing.{MayChange};
    ghost use Rattle.ded_catalog.specs.Forms.{change_form};

    ghost view = { λ s. record { table = s.catalogue.now; change = change_form s.change } };

    ghost invariant = { λ s. MayChange (catalogue_of s.catalogue.now) (change_form s.change) };
}

impl<'a> Snapshot<'a> {
    ghost use Rattle.ded_model.specs.Catalogue.{tuples_of};
    ghost use Rattle.ded_model.specs.Entries.{known, view_in, tuples_in, columns_in, inserts_in};
    ghost use Rattle.ded_model.specs.Goal.{goal_form};
    ghost use Rattle.ded_model.specs.Known.{IsTupleOver, IsWellFormed};
    ghost use Rattle.ded_model.specs.ShortRows.{HasShortRows};
    ghost use Rattle.ded_model.specs.Slotted.{goal_of};
    ghost use Rattle.ded_model.specs.Width.{tuple_length};
    ghost use Rattle.ded_sorts.specs.Causes.{insert_refusal, is_relation_with};
    ghost use Rattle.ded_sorts.specs.Changes.{Inserts, Deletes};
    ghost use Rattle.ded_ranges.specs.Windows.{AreLent};
    ghost use Rattle.ded_packed.specs.Lent.{lent};
    ghost use Rattle.ded_catalog.specs.Snapshots.{snapshot_of, AreSnapshotSteps};

    /// The catalogue as it is.
    #[tactic(auto, unfolding(crate::specs::Snapshots::snapshot_of))]
    pub fn present(catalogue: &'a Catalogue) -> Snapshot<'a>
        ensures { snapshot_of result ≡ catalogue_of catalogue.now }
    {
        Snapshot {
            catalogue,
            change: PendingChange::Nothing,
        }
    }

    /// The catalogue as an insert of the tuple into the relation of the name makes it. The relation has room for it, so
    /// the insert would be refused only for running out of memory.
    pub fn with_tuple(catalogue: &'a Catalogue, name: &'a Name, tuple: &'a Tuple) -> Snapshot<'a>
        requires relation { is_relation_with (known (catalogue_of catalogue.now) name.now) ≡ true }
        requires over { IsTupleOver (columns_in (catalogue_of catalogue.now) name.now) tuple.now }
        requires short { tuple_length tuple.now ≤ 63 }
        requires room { insert_refusal (catalogue_of catalogue.now) name.now ≡ None }
        ensures { Inserts (catalogue_of catalogue.now) (snapshot_of result) name.now tuple.now
            (inserts_in (entry_of (catalogue_of catalogue.now).entries name.now) + 1) }
    {
        catalogue.formed();
        Snapshot {
            catalogue,
            change: PendingChange::Insert(name, tuple),
        }
    }

    /// The catalogue as a delete of the tuple of the number, which has to be there, from the relation of the name makes
    /// it.
    pub fn without_tuple(catalogue: &'a Catalogue, name: &'a Name, number: u64) -> Snapshot<'a>
        requires { list_any (λ t. t.0 == number) (tuples_in (catalogue_of catalogue.now) name.now) ≡ true }
        ensures { Deletes (catalogue_of catalogue.now) (snapshot_of result) name.now number }
    {
        catalogue.formed();
        Snapshot {
            catalogue,
            change: PendingChange::Delete(name, number),
        }
    }

    /// Every snapshot is well formed, as every catalogue is. It does nothing.
    pub fn formed(&self)
        ensures { IsWellFormed (snapshot_of self.now) }
    {
        let catalogue = self.catalogue;
        catalogue.formed();
    }

    /// Every view has short rows, as those of every catalogue have. It does nothing.
    pub fn short(&self)
        ensures { AllByRecursion HasShortRows (snapshot_of self.now).entries }
    {
        let catalogue = self.catalogue;
        catalogue.short();
    }

    /// The heading of a relation or a view. None exactly where no entry has the name.
    pub fn heading(&self, name: &Name) -> Option<&Heading>
        ensures { option_map (λ h. h.now) result ≡ option_map (λ k. k.columns) (known (snapshot_of self.now) name.now) }
    {
        let catalogue = self.catalogue;
        catalogue.heading(name)
    }

    /// The goal of a view's formula. None exactly where the name is no view.
    pub fn goal(&self, name: &Name) -> Option<&Goal>
        ensures { option_map (λ g. goal_form g.now) result
            ≡ option_map (λ v. goal_of v.0 v.1) (view_in (entry_of (snapshot_of self.now).entries name.now)) }
    {
        let catalogue = self.catalogue;
        catalogue.goal(name)
    }

    /// Whether the name is that of a relation.
    pub fn is_relation(&self, name: &Name) -> bool
        ensures { result ≡ is_some (relation_in (entry_of (snapshot_of self.now).entries name.now)) }
    {
        let catalogue = self.catalogue;
        catalogue.stored(name).is_some()
    }

    /// The tuples of a relation that may hold in the window, in order of their numbers. All that hold somewhere in it
    /// are among them. None exactly where the name is no relation. The steps are those of [`Catalogue::look_up`], and
    /// one more for the tuple that may be inserted.
    ///
    /// # Errors
    /// Out of memory.
    pub fn near<L: Ledger>(
        &self,
        alloc: Global,
        name: &Name,
        window: &Window,
        steps: &mut Steps<L>,
    ) -> Result<Option<Vec<Lent<'_>>>, NoMemory>
        ensures found { IfOk result (λ found. AreLent window.now (option_map (λ v. lent v.items) found)
            (option_map tuples_of (relation_in (entry_of (snapshot_of self.now).entries name.now)))) }
        ensures steps { AreSnapshotSteps self.now name.now window.now steps.old steps.new }
        ensures read { IfOk result (λ found. IfSome found (λ ts. steps.old + length ts.items ≤ steps.new)) }
    {
        let catalogue = self.catalogue;
        let Some(found) = catalogue.look_up(alloc, name, window, steps)? else {
            return Ok(None);
        };
        let left = left_of(alloc, &found, self.change.deleted(name))?;
        drop(found);
        steps.tick(); // for the tuple that may be inserted
        Ok(Some(with_inserted(left, self.change.inserted(name))?))
    }

    /// All tuples of a relation, in order of their numbers. None exactly where the name is no relation.
    ///
    /// # Errors
    /// Out of memory.
    pub fn all(&self, alloc: Global, name: &Name) -> Result<Option<Vec<Lent<'_>>>, NoMemory>
        ensures { IfOk result (λ list. option_map (λ v. lent v.items) list
            ≡ option_map tuples_of (relation_in (entry_of (snapshot_of self.now).entries name.now))) }
    {
        let catalogue = self.catalogue;
        let Some(tuples) = catalogue.stored(name) else {
            return Ok(None);
        };
        let list = all(alloc, tuples)?;
        let left = left_of(alloc, &list, self.change.deleted(name))?;
        drop(list);
        let inserted = self.change.inserted(name);
        Ok(Some(with_inserted(left, inserted)?))
    }
}
