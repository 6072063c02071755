//! What a journal is after a crash or a close, as the next open finds it.
ghost use Rattle.std.specs.Prelude.{◌≡◌, ◌≤◌, IsTrue, IfOk};
ghost use Rattle.sqlite_trees.specs.Tree.{Trees};
ghost use Rattle.ded_journal.specs.Closing.{FindsList};
ghost use Rattle.ded_journal.specs.Statements.{HoldsStatements};
ghost use Rattle.ded_journal.specs.Journals.{IsHonest, IsFoundIn};

use crate::{Journal, NotOpened};
use sqlite::{FileStore, Files, Leftover, Options};
use sqlite_disk::{Crash, Disk};
use sqlite_trees::store::{Alter, Reopen};
use std::alloc::Global;

/// A crash at this moment, and the next open: it finds one of the lists that a crash may leave, whole; of a journal
/// that was open the last commit.
///
/// # Errors
/// As `Journal::over`, with the store.
pub fn reopen<S: Alter + Reopen + Drop>(
    alloc: Global,
    journal: Journal<S>,
) -> Result<Journal<S>, (NotOpened, S)>
    ensures found { IfOk result (λ again. IsHonest again → IsFoundIn S.Store.recovers journal again.now) }
    ensures settled { IfOk result (λ again. IsHonest again → again.now ≡ again.committed) }
    ensures last_commit { IfOk result (λ again. IsHonest again → IsTrue journal.is_open
        → again.now ≡ journal.committed) }
{
    let mut store = journal.into_store();
    if let Err(error) = store.crash_and_reopen() {
        return Err((NotOpened::Failed(error), store));
    }
    match Journal::over(alloc, store) {
        Ok(again) => Ok(again),
        Err(failed) => Err(failed),
    }
}

/// Files that hold a list of statements, and an open of them: it finds that list.
///
/// # Errors
/// As `Journal::open_files`.
pub fn open_list<D: Disk + Drop>(
    alloc: Global,
    files: Files<D>,
    options: Options,
) -> Result<Journal<FileStore<D>>, (NotOpened, Leftover<D>)>
    requires log { IsTrue (D.Disk.is_usable files.log) }
    requires db { IsTrue (D.Disk.is_usable files.db) }
    ensures { IfOk result (λ journal. IsHonest journal → FindsList D.Disk files journal) }
{
    match Journal::open_files(alloc, files, options) {
        Ok(journal) => Ok(journal),
        Err(failed) => Err(failed),
    }
}

/// A close that is done, a crash at any moment after it, and the next open: it finds the last commit, whole.
///
/// # Errors
/// As `Journal::close` and as `Journal::open_files`.
pub fn reopen_closed<D: Crash + Drop>(
    alloc: Global,
    journal: Journal<FileStore<D>>,
    options: Options,
) -> Result<Journal<FileStore<D>>, NotOpened>
    ensures { IfOk result (λ again. IsHonest again → again.now ≡ journal.committed) }
{
    let Files { mut log, mut db } = match journal.close() {
        Ok(files) => files,
        Err((error, _)) => return Err(NotOpened::Failed(error)),
    };
    log.crash();
    db.crash();
    match open_list(alloc, Files { log, db }, options) {
        Ok(again) => Ok(again),
        Err((refusal, _)) => Err(refusal),
    }
}
