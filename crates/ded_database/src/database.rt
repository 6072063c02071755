//! Databases.
ghost use Rattle.std.specs.Prelude.{◌≡◌, ◌==◌, ◌↔◌, ◌≤◌, true, false, None, [], length, is_some, IsTrue, IfOk, IfErr};
ghost use Rattle.std.specs.Prelude.{IfSome, IsErrOf, OnOk, OnErr};
ghost use Rattle.std.specs.List.{list_any};
ghost use Rattle.std.specs.Option.{option_map, unwrap_or};
ghost use Rattle.ded_catalog.specs.State.{catalogue_of};

use crate::change::{Change, TupleStep};
use crate::gone::told_tuple;
use crate::keeping::{drop_kept, keep_view};
use crate::laws;
use crate::mark::Mark;
use crate::upkeep::bring_up_to_date;
use ded_algebra::{Evaluate, Given};
use ded_catalog::{Catalogue, Snapshot};
use ded_model::command::Refusal;
use ded_model::formula::Formula;
use ded_model::goal::Goal;
use ded_model::memory::{NoMemory, Refused};
use ded_model::name::{Heading, Name};
use ded_model::tuple::{Tuple, Tuples};
use ded_query::{answer, is_true};
use std::alloc::Global;
use std::marker::Model;

/// A catalogue, the marks of kept views, and the lists that are held of them: each is right over the catalogue.
/// Contracts see all of these, and how often a list was extended by one tuple alone.
#[derive(Drop)]
pub struct Database {
    catalogue: Catalogue,
    marks: Vec<Mark>,
    held: Given,
    added: u64,
    alloc: Global,
}

impl Model for Database {
    ghost use Rattle.std.specs.Coded.{codes};
    ghost use Rattle.ded_catalog.specs.contracts.stored.Stored as stored;
    ghost use Rattle.ded_model.specs.contracts.plan.Plan as plan;
    ghost use Rattle.ded_catalog.specs.State.{catalogue_of};
    ghost use Rattle.ded_database.specs.Held.{IsUpheld};
    ghost use Rattle.ded_database.specs.State.{State};

    ghost Value = { State };

    ghost coded = { Prim.hlevel (stored.the_row.coded, plan.the_row.coded, codes) };

    ghost view = { λ d. record { table = d.catalogue; marks = d.marks.items; held = d.held; added = d.added } };

    ghost invariant = { λ d. IsUpheld (catalogue_of d.catalogue) d.marks.items d.held };
}

impl Database {
    ghost use Rattle.ded_model.specs.declared.command.Refusal.TheVariants.{Memory};
    ghost use Rattle.ded_model.specs.declared.memory.Refused.TheVariants.{Wide};
    ghost use Rattle.ded_model.specs.Catalogue.{relation, view, IsTruth};
    ghost use Rattle.ded_model.specs.Form.{Form, form};
    ghost use Rattle.ded_model.specs.Goal.{goal_form};
    ghost use Rattle.ded_model.specs.Known.{IsAccepted, IsNewName, IsTupleOver, level_of};
    ghost use Rattle.ded_model.specs.Logic.{some_atom};
    ghost use Rattle.ded_model.specs.LongRows.{is_long_atom};
    ghost use Rattle.ded_model.specs.Plain.{IsPlain};
    ghost use Rattle.ded_model.specs.Measure.{IsTight};
    ghost use Rattle.ded_model.specs.Slotted.{goal_of};
    ghost use Rattle.ded_model.specs.Width.{tuple_length};
    ghost use Rattle.ded_sorts.specs.Causes.{insert_refusal, is_relation_with, is_view_with};
    ghost use Rattle.ded_sorts.specs.Changes.{AddsEntry, Inserts, Deletes, DropsEntry};
    ghost use Rattle.ded_model.specs.Entries.{known, tuples_in, columns_in, entry_uses};
    ghost use Rattle.ded_relation.specs.Hashing.{keyed};
    ghost use Rattle.ded_query.specs.Questions.{IsQuestion, IsAnswer};
    ghost use Rattle.ded_database.specs.Held.{held_under, IsListOf};
    ghost use Rattle.ded_database.specs.Upkeep.{KeepsUp, LeavesOthers, OnlyAdds};
    ghost use Rattle.ded_database.specs.State.{catalogue_at, is_kept, IsSound};
    ghost use Rattle.ded_database.specs.Steps.{KeepsMarks, KeepsLists, Marks, Unmarks};

    /// A database with an empty catalogue whose relations have at most `limit` tuples, 1 to 1,000,000, and no kept
    /// view. The names are hashed with the keys: where names are untrusted, draw these at random. It does not allocate
    /// yet.
    pub fn new(alloc: Global, limit: u32, keys: (u64, u64)) -> Database
        requires low { 1 ≤ limit }
        requires high { limit ≤ 1000000 }
        ensures catalogue { catalogue_at result ≡ record { limit = limit; entries = [] } }
        ensures marks { result.marks ≡ [] }
        ensures held { result.held ≡ [] }
        ensures added { result.added ≡ 0 }
        ensures hashed { result.table.hashing ≡ keyed keys }
    {
        Database::over(alloc, Catalogue::hashed_with(alloc, limit, keys))
    }

    /// A database with this catalogue and no kept view. It does not allocate.
    pub fn over(alloc: Global, catalogue: Catalogue) -> Database
        ensures catalogue { catalogue_at result ≡ catalogue_of catalogue }
        ensures marks { result.marks ≡ [] }
        ensures held { result.held ≡ [] }
        ensures added { result.added ≡ 0 }
        ensures hashed { result.table.hashing ≡ catalogue.hashing }
    {
        Database {
            catalogue,
            marks: Vec::new(alloc),
            held: Given::new(alloc),
            added: 0,
            alloc,
        }
    }

    /// The catalogue alone. It does not allocate.
    pub fn into_catalogue(self) -> Catalogue
        ensures { catalogue_of result ≡ catalogue_at self }
    {
        self.catalogue
    }

    /// The present catalogue. It does not allocate.
    pub fn catalogue(&self) -> &Catalogue
        ensures { catalogue_of result.now ≡ (catalogue_at self.now) }
    {
        &self.catalogue
    }

    /// Every database is sound: its catalogue is well formed, and marks and lists are right over it. It does nothing.
    pub fn sound(&self)
        ensures { IsSound self.now }
    {
        self.catalogue.formed();
        let _ = &self.held; // for its invariant
    }

    /// The list that is held of a kept view: its tuples hold exactly where the view's formula does. None where none is
    /// held. It does not allocate.
    pub fn kept(&self, name: &Name) -> Option<&[Tuple]>
        ensures held { option_map (λ ts. ts.now) result ≡ held_under self.now.held name.now }
        ensures list { IfSome result (λ ts. IsListOf (catalogue_at self.now) name.now ts.now) }
        ensures marked { IfSome result (λ ts. is_kept self.now name.now ≡ true) }
    {
        self.catalogue.formed();
        self.held.tuples(name)
    }

    /// How often a list was extended by a tuple alone, up to the greatest number. It does not allocate.
    pub fn added(&self) -> u64
        ensures { result ≡ self.now.added }
    {
        self.added
    }

    /// Defines a relation without tuples, of at most 16 columns, under a new name.
    ///
    /// # Errors
    /// Out of memory; nothing is changed then.
    pub fn define(&mut self, name: Name, heading: Heading) -> Result<(), NoMemory>
        requires new { IsNewName (known (catalogue_at self.old)) name }
        requires few { length heading ≤ 16 }
        ensures ok { OnOk result (AddsEntry (catalogue_at self.old) (catalogue_at self.new)
            (relation name heading 0 [])) }
        ensures err { OnErr result ((catalogue_at self.new) ≡ (catalogue_at self.old)) }
        ensures lists { KeepsLists self.old self.new }
    {
        self.catalogue.formed();
        let defined = self.catalogue.define(name, heading);
        self.catalogue.formed();
        defined
    }

    /// Defines a view under a new name: its formula as written, and the goal of that.
    ///
    /// # Errors
    /// Out of memory; nothing is changed then.
    pub fn define_view(
        &mut self,
        name: Name,
        heading: Heading,
        formula: Formula,
        goal: Goal,
    ) -> Result<(), NoMemory>
        requires new { IsNewName (known (catalogue_at self.old)) name }
        requires accepted { IsAccepted (known (catalogue_at self.old)) heading (form formula) }
        requires level { level_of (known (catalogue_at self.old)) (form formula) ≤ 16 }
        requires plain { IsPlain (form formula) }
        requires short { some_atom is_long_atom (form formula) ≡ false }
        requires goal { goal_form goal ≡ goal_of heading (form formula) }
        ensures ok { OnOk result (AddsEntry (catalogue_at self.old) (catalogue_at self.new)
            (view name heading (form formula))) }
        ensures err { OnErr result ((catalogue_at self.new) ≡ (catalogue_at self.old)) }
        ensures lists { KeepsLists self.old self.new }
    {
        self.catalogue.formed();
        let defined = self.catalogue.define_view(name, heading, formula, goal);
        self.catalogue.formed();
        defined
    }

    /// Drops a name that is defined and that no view uses, with its mark and its list. It does not allocate.
    pub fn drop_name(&mut self, name: &Name)
        requires defined { is_some (known (catalogue_at self.old) name.now) ≡ true }
        requires unused { list_any (entry_uses name.now) (catalogue_at self.old).entries ≡ false }
        ensures catalogue { DropsEntry (catalogue_at self.old) (catalogue_at self.new) name.now }
        ensures lists { Unmarks self.old self.new name.now }
    {
        self.catalogue.formed();
        drop_kept(&mut self.marks, &mut self.held, name);
        self.catalogue.drop_name(name);
        self.catalogue.formed();
    }

    /// Inserts a tuple into the relation of the name, gives the tuple's number, and brings the lists of kept views up
    /// to date.
    ///
    /// # Errors
    /// `Full` exactly where the relation has as many tuples as the limit allows, else `Spent` exactly where it has
    /// accepted 4,294,967,295 inserts; nothing is changed then. Else `Memory`: the catalogue is as before, and lists of
    /// views that reach the relation may be gone.
    pub fn insert<E: Evaluate>(&mut self, name: &Name, tuple: Tuple) -> Result<u32, Refusal>
        requires relation { is_relation_with (known (catalogue_at self.old) name.now) ≡ true }
        requires over { IsTupleOver (columns_in (catalogue_at self.old) name.now) tuple }
        requires short { tuple_length tuple ≤ 63 }
        ensures ok { IfOk result (λ k. Inserts (catalogue_at self.old) (catalogue_at self.new) name.now tuple k) }
        ensures room { IfOk result (λ k. insert_refusal (catalogue_at self.old) name.now ≡ None) }
        ensures cause { IfErr result (λ r. r ≡ unwrap_or (insert_refusal (catalogue_at self.old) name.now) Memory) }
        ensures err { OnErr result ((catalogue_at self.new) ≡ (catalogue_at self.old)) }
        ensures marks { KeepsMarks self.old self.new }
        ensures kept { OnOk result (KeepsUp (catalogue_at self.old) (catalogue_at self.new) name.now
            (is_kept self.old) self.old.held self.new.held) }
        ensures adds { OnOk result (OnlyAdds (catalogue_at self.old) name.now self.old.held self.new.held) }
        ensures left { LeavesOthers (catalogue_at self.old) name.now self.old.held self.new.held }
        ensures refused { IfErr result (λ r. (r ≡ Memory → ⊥) → self.new.held ≡ self.old.held) }
    {
        if let Some(refusal) = self.catalogue.refuses(name) {
            return Err(refusal);
        }
        self.catalogue.formed();
        let snapshot = Snapshot::with_tuple(&self.catalogue, name, &tuple);
        snapshot.formed();
        let change = Change {
            catalogue: &self.catalogue,
            snapshot: &snapshot,
            name,
            step: TupleStep::Inserted(&tuple),
        };
        let Ok(count) = bring_up_to_date::<E>(
            self.alloc,
            &change,
            &self.marks,
            &mut self.held,
            &mut self.added,
        ) else {
            return Err(Refusal::Memory);
        };
        ded_views::laws::one_change();
        laws::lasting_marks();
        match self.catalogue.insert(name, tuple) {
            Ok(number) => Ok(number),
            Err(refusal) => {
                self.held.keep_first(count);
                Err(refusal)
            }
        }
    }

    /// Deletes the tuple of the number, which has to be there, from the relation of the name, and brings the lists of
    /// kept views up to date.
    ///
    /// # Errors
    /// Out of memory: the catalogue is as before, and lists of views that reach the relation may be gone.
    pub fn delete<E: Evaluate>(&mut self, name: &Name, number: u64) -> Result<(), NoMemory>
        requires { list_any (λ t. t.0 == number) (tuples_in (catalogue_at self.old) name.now) ≡ true }
        ensures ok { OnOk result (Deletes (catalogue_at self.old) (catalogue_at self.new) name.now number) }
        ensures err { OnErr result ((catalogue_at self.new) ≡ (catalogue_at self.old)) }
        ensures marks { KeepsMarks self.old self.new }
        ensures kept { OnOk result (KeepsUp (catalogue_at self.old) (catalogue_at self.new) name.now
            (is_kept self.old) self.old.held self.new.held) }
        ensures left { LeavesOthers (catalogue_at self.old) name.now self.old.held self.new.held }
    {
        self.catalogue.formed();
        let snapshot = Snapshot::without_tuple(&self.catalogue, name, number);
        snapshot.formed();
        let change = Change {
            catalogue: &self.catalogue,
            snapshot: &snapshot,
            name,
            step: TupleStep::Deleted(told_tuple(&self.catalogue, name, number)),
        };
        let count = bring_up_to_date::<E>(
            self.alloc,
            &change,
            &self.marks,
            &mut self.held,
            &mut self.added,
        )?;
        ded_views::laws::one_change();
        laws::lasting_marks();
        match self.catalogue.delete(name, number) {
            Ok(()) => Ok(()),
            Err(refused) => {
                self.held.keep_first(count);
                Err(refused)
            }
        }
    }

    /// Marks a view, and makes its list where none is held. Where numbers get too long for it, none is held.
    ///
    /// # Errors
    /// Out of memory; nothing is changed then.
    pub fn keep<E: Evaluate>(&mut self, name: &Name) -> Result<(), NoMemory>
        requires { is_view_with (known (catalogue_at self.old) name.now) ≡ true }
        ensures catalogue { (catalogue_at self.new) ≡ (catalogue_at self.old) }
        ensures ok { OnOk result (Marks self.old self.new name.now) }
        ensures err { OnErr result (KeepsLists self.old self.new) }
    {
        keep_view::<E>(
            self.alloc,
            &self.catalogue,
            &mut self.marks,
            &mut self.held,
            name,
        )
    }

    /// Whether a closed formula, given as its goal, is true. Of views whose lists are held it reads these.
    ///
    /// # Errors
    /// `Wide` only where the formula isn't tight, otherwise out of memory.
    pub fn is_true<E: Evaluate>(&mut self, goal: &Goal) -> Result<bool, Refused>
        requires question { (f : Form) × IsQuestion (catalogue_at self.old) [] (goal_form goal.now) f }
        ensures truth { (f : Form) → IsQuestion (catalogue_at self.old) [] (goal_form goal.now) f
            → IfOk result (λ b. IsTrue b ↔ IsTruth (catalogue_at self.old) f) }
        ensures wide { IsErrOf result Wide → (f : Form) → IsQuestion (catalogue_at self.old) [] (goal_form goal.now) f
            → IsTight (catalogue_at self.old) [] f → ⊥ }
        ensures same { self.new ≡ self.old }
    {
        let snapshot = Snapshot::present(&self.catalogue);
        is_true::<E>(self.alloc, &snapshot, goal, &mut self.held)
    }

    /// Normal tuples over the heading that hold exactly where a formula does, given as its goal. Each narrow one has
    /// nothing superfluous. Of views whose lists are held it reads these.
    ///
    /// # Errors
    /// `Wide` only where the formula isn't tight, otherwise out of memory.
    pub fn answer<E: Evaluate>(&mut self, heading: &Heading, goal: &Goal) -> Result<Tuples, Refused>
        requires question { (f : Form) × IsQuestion (catalogue_at self.old) heading.now (goal_form goal.now) f }
        ensures is { (f : Form) → IsQuestion (catalogue_at self.old) heading.now (goal_form goal.now) f
            → IfOk result (λ ts. IsAnswer (catalogue_at self.old) heading.now f ts) }
        ensures wide { IsErrOf result Wide → (f : Form)
            → IsQuestion (catalogue_at self.old) heading.now (goal_form goal.now) f
            → IsTight (catalogue_at self.old) heading.now f → ⊥ }
        ensures same { self.new ≡ self.old }
    {
        let snapshot = Snapshot::present(&self.catalogue);
        answer::<E>(self.alloc, &snapshot, heading, goal, &mut self.held)
    }
}
