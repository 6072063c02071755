//! Crashes at each call of the two files, what a close leaves, and files of others.
ghost use Rattle.std.specs.Prelude.{IsTrue};

use crate::{Journal, NotOpened};
use sqlite::{Connection, FileStore, Files, Options};
use sqlite_disk::{Crash, Disk, Fuse, Memory};
use sqlite_trees::store::{Alter, Store};
use std::alloc::Global;
use std::process::Abort;
use std::test::Fail;

const TEXTS: &[u8] = b"abcd";

/// Two statements a commit, until a call fails: how many were acknowledged, and how many the last commit that was begun
/// would have left.
fn write_pairs<S: Store>(journal: &mut Journal<S>) -> (usize, usize) {
    for done in 0..2usize {
        let first = journal.append(&TEXTS[2 * done..2 * done + 1]).is_ok();
        if !first || journal.append(&TEXTS[2 * done + 1..2 * done + 2]).is_err() {
            return (2 * done, 2 * done);
        }
        if journal.commit().is_err() {
            return (2 * done, 2 * done + 2);
        }
    }
    (4, 4)
}

/// How many statements there are, if they are the first of the script.
fn count<S: Store>(alloc: Global, journal: &mut Journal<S>) -> Result<Option<usize>, Fail> {
    let mut text = Vec::new(alloc);
    for at in 0..4usize {
        if !journal.read(at as u64, &mut text)? {
            return Ok(Some(at));
        }
        if text.as_slice() != &TEXTS[at..at + 1] {
            return Ok(None);
        }
    }
    let has_more = journal.read(4, &mut text)?;
    Ok(if has_more { None } else { Some(4) })
}

/// The files, and whether the close was done.
fn close<D: Disk + Drop>(journal: Journal<FileStore<D>>) -> (bool, Files<D>) {
    match journal.close() {
        Ok(files) => (true, files),
        Err((_, store)) => (false, store.close()),
    }
}

/// How far a script came.
#[derive(Clone, Copy)]
struct Run {
    /// How many statements were acknowledged.
    least: usize,
    /// How many the last commit that was begun would have left.
    most: usize,
    /// Whether the close was done.
    is_closed: bool,
}

impl Run {
    const NONE: Run = Run {
        least: 0,
        most: 0,
        is_closed: false,
    };
}

/// The script over these files, with one more statement that is not committed, and a close.
fn run_script<D: Disk + Drop>(alloc: Global, files: Files<D>) -> (Run, Files<D>)
    requires log { IsTrue (D.Disk.is_usable files.log) }
    requires db { IsTrue (D.Disk.is_usable files.db) }
{
    match Journal::open_files(alloc, files, Options::new(7)) {
        Ok(mut journal) => {
            let (least, most) = write_pairs(&mut journal);
            let _ = journal.append(b"e");
            let (is_closed, files) = close(journal);
            let run = Run {
                least,
                most,
                is_closed,
            };
            (run, files)
        }
        Err((_, left)) => (Run::NONE, left.into_files()),
    }
}

/// How many statements an open finds, if they are the first of the script.
fn find<D: Disk + Drop>(alloc: Global, files: Files<D>) -> Result<Option<usize>, Fail>
    requires log { IsTrue (D.Disk.is_usable files.log) }
    requires db { IsTrue (D.Disk.is_usable files.db) }
{
    match Journal::open_files(alloc, files, Options::new(8)) {
        Ok(mut journal) => count(alloc, &mut journal),
        Err(_) => Ok(None),
    }
}

/// The script over files that pass so many calls on, a crash, and how many statements the next open finds.
fn crash_after(alloc: Global, log_calls: u64, db_calls: u64) -> Result<(Run, Option<usize>), Fail> {
    let files = Files {
        log: Fuse::new(Memory::new(alloc), log_calls),
        db: Fuse::new(Memory::new(alloc), db_calls),
    };
    let (run, Files { mut log, mut db }) = run_script(alloc, files);
    log.crash();
    db.crash();
    Ok((run, find(alloc, Files { log, db })?))
}

fn is_front(run: Run, found: Option<usize>) -> bool {
    match found {
        Some(found) => run.least <= found && found <= run.most,
        None => false,
    }
}

/// Whether each crash leaves a front of the script that has what was acknowledged, at each call of the log or of the
/// database file, until the close is done before one.
fn is_kept(alloc: Global, in_log: bool) -> Result<bool, Fail> {
    for calls in 0..300 {
        let (log_calls, db_calls) = if in_log {
            (calls, u64::MAX)
        } else {
            (u64::MAX, calls)
        };
        let (run, found) = crash_after(alloc, log_calls, db_calls)?;
        if !is_front(run, found) {
            return Ok(false);
        }
        if run.is_closed {
            return Ok(run.least == 4);
        }
    }
    Ok(false)
}

#[test]
fn a_crash_at_a_call_of_the_log_leaves_what_was_acknowledged(rt: HostRuntime) -> Result<(), Fail> {
    assert!(rt; is_kept(rt.alloc(), true)?);
    Ok(())
}

#[test]
fn a_crash_at_a_call_of_the_file_leaves_what_was_acknowledged(rt: HostRuntime) -> Result<(), Fail> {
    assert!(rt; is_kept(rt.alloc(), false)?);
    Ok(())
}

/// The script and a close: how long a log is left, and how many statements the database file has with an empty one.
fn close_alone(alloc: Global) -> Result<(usize, Option<usize>), Fail> {
    let files = Files {
        log: Memory::new(alloc),
        db: Memory::new(alloc),
    };
    let (_, Files { log, db }) = run_script(alloc, files);
    let left = log.bytes().len();
    if !db.may_be_used() {
        return Ok((left, None));
    }
    let log = Memory::new(alloc);
    Ok((left, find(alloc, Files { log, db })?))
}

#[test]
fn a_close_leaves_the_list_in_the_file_alone(rt: HostRuntime) -> Result<(), Fail> {
    assert!(rt; close_alone(rt.alloc())? == (41, Some(4)));
    Ok(())
}

/// Runs this text, and sets the user version.
fn prepare<S: Alter + Drop>(mut conn: Connection<S>, sql: &str, version: u32) -> Result<S, Fail> {
    conn.execute_batch(sql)?;
    let mut store = conn.into_store();
    store.set_version(version)?;
    store.commit()?;
    Ok(store)
}

fn prepared(alloc: Global, sql: &str, version: u32) -> Result<Files<Memory>, Fail> {
    let files = Files {
        log: Memory::new(alloc),
        db: Memory::new(alloc),
    };
    match Connection::open_files(alloc, files, Options::new(7)) {
        Ok(conn) => Ok(prepare(conn, sql, version)?.close()),
        Err(_) => Err(Fail::from("opened")),
    }
}

fn refusal_of<D: Disk + Drop>(alloc: Global, files: Files<D>) -> Option<NotOpened>
    requires log { IsTrue (D.Disk.is_usable files.log) }
    requires db { IsTrue (D.Disk.is_usable files.db) }
{
    match Journal::open_files(alloc, files, Options::new(7)) {
        Ok(_) => None,
        Err((refusal, _)) => Some(refusal),
    }
}

/// Why files are refused that this text and this user version have made.
fn refusal(alloc: Global, sql: &str, version: u32) -> Result<Option<NotOpened>, Fail> {
    let files = prepared(alloc, sql, version)?;
    if !files.may_be_used() {
        return Ok(None);
    }
    Ok(refusal_of(alloc, files))
}

type Case = (&'static str, u32, Option<NotOpened>);

const OTHERS: [Case; 3] = [
    ("CREATE TABLE note (a)", 0, Some(NotOpened::Foreign)),
    (
        "CREATE TABLE note (a)",
        0x4445_4402,
        Some(NotOpened::Newer(2)),
    ),
    (
        "CREATE TABLE note (a)",
        0x4445_4401,
        Some(NotOpened::Damaged),
    ),
];

const EMPTY: [Case; 4] = [
    ("", 0, None),
    ("", 7, Some(NotOpened::Foreign)),
    ("", 0x4445_4402, Some(NotOpened::Newer(2))),
    ("", 0x4445_4401, Some(NotOpened::Damaged)),
];

/// Whether files that hold this text and this user version are refused for the cause, or opened.
fn are_told(alloc: Global, cases: &[Case]) -> Result<bool, Fail> {
    for &(sql, version, cause) in cases {
        if refusal(alloc, sql, version)? != cause {
            return Ok(false);
        }
    }
    Ok(true)
}

#[test]
fn files_of_others_are_refused(rt: HostRuntime) -> Result<(), Fail> {
    assert!(rt; are_told(rt.alloc(), &OTHERS)?);
    Ok(())
}

#[test]
fn files_with_no_table_and_a_version_are_refused(rt: HostRuntime) -> Result<(), Fail> {
    assert!(rt; are_told(rt.alloc(), &EMPTY)?);
    Ok(())
}
