//! A list of statements on disk, in an SQLite file that sqlite3 reads.
//!
//! The table `statement` has a row for each, numbered from 1, so that `select text from statement order by number`
//! prints a script. The file's user version says whose it is and which version made it.
//!
//! [`Journal::open_files`] opens the journal in a database file and its log, or makes it where they hold nothing;
//! [`Journal::over`] does so in any store. What holds something else, is damaged or is of a newer version is refused
//! for that cause ([`NotOpened`], `RefusesFor`), and left as it was. Nothing is a database with no object and no user
//! version, or no database. [`Journal::read`] gives a statement by its place, [`Journal::append`] adds one,
//! [`Journal::commit`] makes what was added durable and [`Journal::roll_back`] takes it back. [`Journal::close`] moves
//! the last commit from the log into the database file.
//!
//! A contract sees a journal as the statements that it has, those of its last commit, and whether it is open
//! (`specs/Journals.antt`). What it promises stands on the contract of the kit's `Store`:
//!
//! - While a journal is open, each database that a crash may leave holds the last commit, whole (`IsDurable`).
//! - In the midst of a commit it holds the last commit or the one that is being made, whole (`LeavesOneOf`). So an open
//!   after a crash finds one of these two (`laws::reopen`).
//! - After a close that is done the database file holds the last commit, with its log and without it, after a crash
//!   too (`IsMoved`), and an open of what is left finds it (`laws::open_list`, `laws::reopen_closed`). A close that
//!   fails, as one does that a crash cuts off, loses nothing that was committed (`KeepsCommit`).
//! - A call fails only for memory, a fault of the disk, a journal that is shut, or a text that SQLite doesn't take
//!   (`GivesUp`, `FailsToClose`). What was not committed is then gone, and only a fault of the disk shuts the journal
//!   (`IsUndoneTo`).
//! - All this is said as long as the journal is honest (`IsHonest`): no wrong answer of the disk was taken as true.
#![tactic(auto)]

mod files;
mod inspecting;
mod journal;
pub mod laws;
mod raw;
mod refusal;
#[cfg(test)]
mod tests;

pub use journal::Journal;
pub use refusal::NotOpened;
