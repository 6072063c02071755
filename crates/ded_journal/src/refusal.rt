//! Why a journal is not opened.
ghost use Rattle.std.specs.Prelude.{◌≡◌};

use sqlite_trees::error::StoreError;
use std::alloc::AllocError;

/// Why a file is not opened as a journal.
#[derive(Clone, Copy, Debug, PartialEq, Eq)]
pub enum NotOpened {
    /// The file holds something else, or nothing beside the user version of another program.
    Foreign,
    /// It is a journal of this version, which is above those that are known here.
    Newer(u32),
    /// It says that it is a journal, and its table is not as a journal's.
    Damaged,
    /// Another process or handle has the file open.
    Busy,
    /// The system did not open the file, or it is no plain file.
    Unreachable,
    /// The disk or memory failed.
    Failed(StoreError),
}

impl From<StoreError> for NotOpened {
    ghost use Rattle.ded_journal.specs.declared.refusal.NotOpened.TheVariants.{Failed};

    ghost from_gives = { λ error e. e ≡ Failed error };

    fn from(error: StoreError) -> NotOpened {
        NotOpened::Failed(error)
    }
}

impl From<AllocError> for NotOpened {
    ghost use Rattle.ded_journal.specs.declared.refusal.NotOpened.TheVariants.{Failed};
    ghost use Rattle.sqlite_trees.specs.declared.error.StoreError.TheVariants.{OutOfMemory};

    ghost from_gives = { λ _ e. e ≡ Failed OutOfMemory };

    fn from(_: AllocError) -> NotOpened {
        NotOpened::Failed(StoreError::OutOfMemory)
    }
}
