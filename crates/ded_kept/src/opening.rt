//! The journal in a database file and its log, as a run needs it.
ghost use Rattle.std.specs.Prelude.{◌≡◌, IsTrue, IfOk, IfErr};
ghost use Rattle.sqlite_store.specs.FileStore.{recovers, is_shielded};
ghost use Rattle.sqlite.specs.Files.{IsCleanLeft};
ghost use Rattle.ded_journal.specs.Journals.{IsHonest};
ghost use Rattle.ded_journal.specs.Opening.{FindsJournal, FailsToOpen, LeavesJournal};
ghost use Rattle.ded_recording.specs.Saving.{IsSettled};

use ded_journal::{Journal, NotOpened};
use sqlite::{FileStore, Files, Leftover, Options};
use sqlite_disk::Disk;
use std::alloc::Global;

/// Opens the journal in these files, or makes it where they hold nothing, with a random number for the log.
///
/// # Errors
/// As `Journal::open_files`, and the files are left so.
pub fn open_kept<D: Disk + Drop>(
    alloc: Global,
    files: Files<D>,
    seed: u64,
) -> Result<Journal<FileStore<D>>, (NotOpened, Leftover<D>)>
    requires log { IsTrue (D.Disk.is_usable files.log) }
    requires db { IsTrue (D.Disk.is_usable files.db) }
    ensures ok { IfOk result (λ j. IsHonest j → FindsJournal files j) }
    ensures settled { IfOk result (λ j. IsSettled recovers j.now j) }
    ensures shield { IfOk result (λ j. IsHonest j → is_shielded j.store) }
    ensures cause { IfErr result (λ e. IsCleanLeft e.1 → FailsToOpen files e.1 e.0) }
    ensures unharmed { IfErr result (λ e. IsCleanLeft e.1 → LeavesJournal files e.1) }
{
    match Journal::open_files(alloc, files, Options::new(seed)) {
        Ok(journal) => Ok(journal),
        Err(failed) => Err(failed),
    }
}
