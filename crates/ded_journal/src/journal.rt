//! A journal over a store: its statements are read by their places, added at the end, and committed or rolled back.
ghost use Rattle.std.specs.Prelude.{◌≡◌, ◌++◌, [], ◌∷◌, ◌⊎◌, if◌then◌else◌, None, Some, ◌≤◌, length, slice_get, IsTrue};
ghost use Rattle.std.specs.Prelude.{IfOk, IfErr, OnOk};
ghost use Rattle.sqlite_disk.specs.Disk.{MoreFaults};
ghost use Rattle.sqlite_wal.specs.Reads.{AreClean};
ghost use Rattle.sqlite_trees.specs.View.{IsClean, IsQuiet};
ghost use Rattle.sqlite_store.specs.FileStore.{recovers, is_shielded};
ghost use Rattle.sqlite.specs.Steps.{IsFresh};
ghost use Rattle.ded_journal.specs.Journals.{journal_of, IsHonest, Leads, IsUndoneTo, GivesUp, IsUnfit, IsDurable};
ghost use Rattle.ded_journal.specs.Journals.{AddsNoOutcome, LeavesOneOf, AddsOnlyNone, OpensOn, RefusesFor, is_refusal};
ghost use Rattle.ded_journal.specs.Closing.{IsMoved, FailsToClose, KeepsCommit, shown_by};

use crate::NotOpened;
use crate::inspecting::inspect;
use crate::raw::{find_statement, put_statement};
use sqlite::FileStore;
use sqlite_disk::{Disk, Files};
use sqlite_trees::error::StoreError;
use sqlite_trees::store::{Alter, Store};
use sqlite_value::row::Row;
use std::alloc::Global;
use std::marker::Model;

/// A list of statements in a store. A failure undoes what was not committed.
#[derive(Drop)]
pub struct Journal<S: Store> {
    store: S,
    row: Row,
    /// How many statements there are, and how many of them are committed.
    count: u64,
    kept: u64,
}

impl<S: Store> Model for Journal<S> {
    ghost use Rattle.ded_journal.specs.Journals.{JournalState, journal_code, journal_of};
    ghost use Rattle.ded_journal.specs.Invariant.{IsKeptBy};

    ghost Value = { JournalState S };

    ghost coded = { journal_code S.code };

    ghost view = { λ j. journal_of (S.Store.view j.store) (S.Store.faults j.store) (S.Store.blamed j.store) j.store };

    ghost invariant = { λ j. IsKeptBy (S.Store.view j.store) (S.Store.recovers j.store) j.count j.kept };
}

impl<S: Alter + Drop> Journal<S> {
    /// A journal over a store that was just opened. It makes the table where the store has nothing yet.
    ///
    /// # Errors
    /// A store that holds something else, or a journal of a newer version or that is damaged, comes back as it was. A
    /// call that fails gives it back, too, and only a store with nothing may then have been written.
    pub fn over(alloc: Global, mut store: S) -> Result<Journal<S>, (NotOpened, S)>
        requires { IsClean (S.Store.view store) → IsFresh (S.Store.view store) }
        ensures ok { IfOk result (OpensOn (S.Store.view store).trees) }
        ensures clean { IfOk result (λ j. IsHonest j → IsClean (S.Store.view store)) }
        ensures durable { IfOk result (IsDurable S.Store.recovers) }
        ensures crash { IfOk result (λ j. IsHonest j
            → AddsOnlyNone S.Store.recovers store j.store (S.Store.view store).trees) }
        ensures shield { IfOk result (λ j. S.Store.is_shielded store → S.Store.is_shielded j.store) }
        ensures counts { IfOk result (λ j. S.Store.faults store ≤ j.faults) }
        ensures cause { IfErr result (λ e. IsClean (S.Store.view e.1)
            → RefusesFor (S.Store.view store) (MoreFaults (S.Store.faults store) (S.Store.faults e.1)) e.0) }
        ensures falls { IfErr result (λ e. IsClean (S.Store.view e.1) → IsClean (S.Store.view store)) }
        ensures unharmed { IfErr result (λ e. IsClean (S.Store.view e.1)
            → AddsOnlyNone S.Store.recovers store e.1 (S.Store.view store).trees) }
        ensures same { IfErr result (λ e. IsTrue (is_refusal e.0)
            → IsQuiet S.Store.view S.Store.faults S.Store.recovers S.Store.is_shielded store e.1) }
    {
        match inspect(alloc, &mut store) {
            Ok(count) => Ok(Journal {
                store,
                row: Row::new(alloc),
                count,
                kept: count,
            }),
            Err(refusal) => Err((refusal, store)),
        }
    }
}

impl<S: Store> Journal<S> {
    /// How many statements there are, with those that wait for a commit.
    pub fn len(&self) -> u64
        ensures { IsTrue self.now.is_open → result ≡ length self.now.now }
    {
        self.count
    }

    /// Writes the statement at this place, counted from 0, over `text`, and says whether there is one.
    ///
    /// # Errors
    /// It fails for memory, a fault of the disk or a journal that is shut, and what was not committed is then gone.
    pub fn read(&mut self, at: u64, text: &mut Vec<u8>) -> Result<bool, StoreError>
        ensures ok { IfOk result (λ found. IsHonest self.new
            → slice_get self.old.now at ≡ (if found then Some text.new.items else None)) }
        ensures same { OnOk result (Leads self.old self.new self.old.now self.old.committed) }
        ensures err { IfErr result (GivesUp self.old self.new ⊥) }
        ensures crash { AddsNoOutcome S.Store.recovers S.Store.is_shielded self.old self.new }
        ensures durable { IsDurable S.Store.recovers self.new }
    {
        if at >= self.count {
            if self.store.is_broken() {
                return Err(StoreError::Broken);
            }
            return Ok(false);
        }
        match find_statement(&mut self.store, &mut self.row, at + 1, text) {
            Ok(found) => Ok(found),
            Err(error) => {
                self.store.rollback();
                self.count = self.kept;
                Err(error)
            }
        }
    }

    /// Adds a statement at the end, which waits for a commit.
    ///
    /// # Errors
    /// It fails for memory, a fault of the disk, a journal that is shut, or a text of a billion bytes. What was not
    /// committed is then gone.
    pub fn append(&mut self, text: &[u8]) -> Result<(), StoreError>
        ensures ok { OnOk result (Leads self.old self.new (self.old.now ++ text.now ∷ []) self.old.committed) }
        ensures err { IfErr result (GivesUp self.old self.new (IsUnfit self.old.now text.now)) }
        ensures crash { AddsNoOutcome S.Store.recovers S.Store.is_shielded self.old self.new }
        ensures durable { IsDurable S.Store.recovers self.new }
    {
        match put_statement(&mut self.store, &mut self.row, self.count + 1, text) {
            Ok(()) => {
                self.count += 1;
                Ok(())
            }
            Err(error) => {
                self.store.rollback();
                self.count = self.kept;
                Err(error)
            }
        }
    }

    /// Makes what was added durable, all at once.
    ///
    /// # Errors
    /// It fails for memory, a fault of the disk or a journal that is shut. Then what was not committed is gone from an
    /// open journal, and nothing is said of one that is shut but that the next open finds the last commit or this one,
    /// whole.
    pub fn commit(&mut self) -> Result<(), StoreError>
        ensures ok { OnOk result (Leads self.old self.new self.old.now self.old.now) }
        ensures err { IfErr result (GivesUp self.old self.new ⊥) }
        ensures crash { LeavesOneOf S.Store.recovers S.Store.is_shielded self.old self.new }
        ensures durable { IsDurable S.Store.recovers self.new }
    {
        match self.store.commit() {
            Ok(()) => {
                self.kept = self.count;
                Ok(())
            }
            Err(error) => {
                self.count = self.kept;
                Err(error)
            }
        }
    }

    /// Gives the store back, with what was not committed.
    pub fn into_store(self) -> S
        ensures value { result ≡ self.store }
        ensures numbered { IsClean (S.Store.view result) → IsTrue (S.Store.view result).is_numbered }
        ensures shows { self ≡ journal_of (S.Store.view result) (S.Store.faults result) (S.Store.blamed result) result }
        ensures durable { IsDurable S.Store.recovers self }
    {
        let Journal {
            store,
            row: _,
            count: _,
            kept: _,
        } = self;
        store
    }

    /// Takes back what was not committed.
    pub fn roll_back(&mut self)
        ensures undone { IsUndoneTo self.old self.new }
        ensures crash { AddsNoOutcome S.Store.recovers S.Store.is_shielded self.old self.new }
        ensures durable { IsDurable S.Store.recovers self.new }
    {
        self.store.rollback();
        self.count = self.kept;
    }
}

impl<D: Disk + Drop> Journal<FileStore<D>> {
    /// Takes back what was not committed, copies the log into the database file, and gives both files back.
    ///
    /// Then the database file holds the list of the last commit, and the log is wanted no more: beside it, with an
    /// empty one in its place or with none an open finds that list. What is left of the log is a header of 41 bytes,
    /// too few to count as a log. It is not removed, as a `Disk` has no call for that.
    ///
    /// # Errors
    /// It fails for memory, a fault of the disk or a journal that is shut, and gives the store back. The log is then
    /// still wanted: a crash in the midst of the call, which fails each later call of a disk, leaves the last commit
    /// in the two files together.
    pub fn close(self) -> Result<Files<D>, (StoreError, FileStore<D>)>
        ensures moved { IfOk result (λ files. AreClean D.Disk files.log files.db → IsMoved D.Disk self files) }
        ensures usable { IfOk result (λ files. IsTrue (D.Disk.is_usable files.log)
            × IsTrue (D.Disk.is_usable files.db)) }
        ensures err { IfErr result (λ e. FailsToClose self (shown_by e.1) e.0) }
        ensures crash { IfErr result (λ e. AddsNoOutcome recovers is_shielded self (shown_by e.1)) }
        ensures kept { IfErr result (λ e. KeepsCommit recovers self e.1) }
    {
        let Journal {
            mut store,
            row: _,
            count: _,
            kept: _,
        } = self;
        store.rollback();
        match store.checkpoint() {
            Ok(()) => Ok(store.close()),
            Err(error) => Err((error, store)),
        }
    }
}
