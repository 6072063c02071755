//! The line that is written where there is no run.
ghost use Rattle.std.specs.Prelude.{◌≡◌};
ghost use Rattle.ded_kept.specs.Reasons.{failure_text, refusal_text, resuming_text};

use crate::resuming::NotResumed;
use ded_journal::NotOpened;
use sqlite_trees::error::StoreError;

fn failure_line(error: &StoreError) -> &'static [u8]
    ensures { result.now ≡ failure_text error.now }
{
    match error {
        StoreError::OutOfMemory => b"not opened: out of memory\n",
        StoreError::Full => b"not opened: the disk is full\n",
        _ => b"not opened: the disk failed\n",
    }
}

/// The line that says why a file isn't opened.
pub fn refusal_line(refusal: &NotOpened) -> &'static [u8]
    ensures { result.now ≡ refusal_text refusal.now }
{
    match refusal {
        NotOpened::Foreign => b"not opened: the file is of another program\n",
        NotOpened::Newer(_) => b"not opened: the file is of a newer version\n",
        NotOpened::Damaged => b"not opened: the file is damaged\n",
        NotOpened::Busy => b"not opened: the file is in use\n",
        NotOpened::Unreachable => {
            b"not opened: there is no such file that can be read and written\n"
        }
        NotOpened::Failed(error) => failure_line(error),
    }
}

/// The line that says why the statements of a file give no session.
pub fn resuming_line(why: &NotResumed) -> &'static [u8]
    ensures { result.now ≡ resuming_text why.now }
{
    match why {
        NotResumed::NoMemory => b"not opened: out of memory\n",
        NotResumed::Failed(error) => failure_line(error),
        NotResumed::Unaccepted(_) => {
            b"not opened: a statement of the file is not accepted again\n"
        }
    }
}
