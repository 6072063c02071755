//! A journal in a database file and its log.
ghost use Rattle.std.specs.Prelude.{◌≡◌, ◌≤◌, IsTrue, IfOk, IfErr};
ghost use Rattle.sqlite_disk.specs.Disk.{MoreFaults};
ghost use Rattle.sqlite_trees.specs.View.{IsClean};
ghost use Rattle.sqlite_store.specs.FileStore.{recovers, is_shielded};
ghost use Rattle.sqlite.specs.Files.{IsCleanLeft};
ghost use Rattle.ded_journal.specs.Opening.{IsRefused, FindsJournal, FailsToOpen, LeavesJournal};
ghost use Rattle.ded_journal.specs.Journals.{IsHonest, IsDurable, OpensOn, LeavesFound, named_error};

use crate::{Journal, NotOpened};
use sqlite::{Connection, Error, ErrorCode, FileStore, Files, Leftover, Options};
use sqlite_disk::Disk;
use sqlite_trees::error::StoreError;
use sqlite_trees::store::Alter;
use std::alloc::Global;

fn not_opened(error: &Error) -> NotOpened
    ensures { result ≡ named_error error.now }
{
    let Error::SqliteFailure(code) = error else {
        return NotOpened::Failed(StoreError::Io);
    };
    match code {
        ErrorCode::NotADatabase => NotOpened::Foreign,
        ErrorCode::DatabaseCorrupt => NotOpened::Damaged,
        ErrorCode::DatabaseBusy => NotOpened::Busy,
        ErrorCode::CannotOpen => NotOpened::Unreachable,
        ErrorCode::OutOfMemory => NotOpened::Failed(StoreError::OutOfMemory),
        ErrorCode::DiskFull => NotOpened::Failed(StoreError::Full),
        ErrorCode::TooBig => NotOpened::Failed(StoreError::Unstorable),
        ErrorCode::Closed => NotOpened::Failed(StoreError::Broken),
        _ => NotOpened::Failed(StoreError::Io),
    }
}

/// The journal in the store of a connection that was just opened.
fn adopt<S: Alter + Drop>(alloc: Global, conn: Connection<S>) -> Result<Journal<S>, (NotOpened, S)>
    requires { IsClean (S.Store.view conn.store) → IsTrue (S.Store.view conn.store).is_open }
    ensures ok { IfOk result (λ j. IsHonest j → OpensOn (S.Store.view conn.store).committed j) }
    ensures clean { IfOk result (λ j. IsHonest j → IsClean (S.Store.view conn.store)) }
    ensures durable { IfOk result (IsDurable S.Store.recovers) }
    ensures shield { IfOk result (λ j. S.Store.is_shielded conn.store → S.Store.is_shielded j.store) }
    ensures counts { IfOk result (λ j. S.Store.faults conn.store ≤ j.faults) }
    ensures falls { IfErr result (λ e. IsClean (S.Store.view e.1) → IsClean (S.Store.view conn.store)) }
    ensures cause { IfErr result (λ e. IsClean (S.Store.view e.1)
        → IsRefused (S.Store.view conn.store).committed (MoreFaults (S.Store.faults conn.store) (S.Store.faults e.1))
        e.0) }
    ensures unharmed { IfErr result (λ e. IsClean (S.Store.view e.1)
        → LeavesFound S.Store.recovers (S.Store.view conn.store).committed e.1) }
{
    let store = conn.into_store();
    if store.is_broken() {
        return Err((NotOpened::Failed(StoreError::Io), store));
    }
    match Journal::over(alloc, store) {
        Ok(journal) => Ok(journal),
        Err(failed) => Err(failed),
    }
}

impl<D: Disk + Drop> Journal<FileStore<D>> {
    /// Opens the journal in these files, or makes it where they hold nothing. Each row is read.
    ///
    /// # Errors
    /// As `over`, and the files are left as `Connection::open_files` leaves them.
    pub fn open_files(
        alloc: Global,
        files: Files<D>,
        options: Options,
    ) -> Result<Journal<FileStore<D>>, (NotOpened, Leftover<D>)>
        requires log { IsTrue (D.Disk.is_usable files.log) }
        requires db { IsTrue (D.Disk.is_usable files.db) }
        ensures ok { IfOk result (λ j. IsHonest j → FindsJournal files j) }
        ensures durable { IfOk result (IsDurable recovers) }
        ensures shield { IfOk result (λ j. IsHonest j → is_shielded j.store) }
        ensures cause { IfErr result (λ e. IsCleanLeft e.1 → FailsToOpen files e.1 e.0) }
        ensures unharmed { IfErr result (λ e. IsCleanLeft e.1 → LeavesJournal files e.1) }
    {
        match Connection::open_files(alloc, files, options) {
            Ok(conn) => match adopt(alloc, conn) {
                Ok(journal) => Ok(journal),
                Err((refusal, store)) => Err((refusal, Leftover::Store(store))),
            },
            Err((error, left)) => Err((not_opened(&error), left)),
        }
    }
}
