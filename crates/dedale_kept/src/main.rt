//! Answers a script from standard input over a database that is kept in a file.
//!
//! `dedale_kept FILE [--limit N]` opens the file or makes it, and writes one reply for each statement, as `dedale` does
//! in the second language. What changes the catalogue is in the file before it is acknowledged. The exit status is that
//! of `dedale`, 4 where the file fails, and 7 where the file isn't opened, which standard output tells in a line. All
//! that it does is `ded_kept::run_kept`, over the file and its log beside it.
#![tactic(auto)]

use ded_io::{StdSink, StdSource, send};
use ded_journal::{Journal, NotOpened};
use ded_kept::{KeptStatus, limit_in, open_kept, refusal_line, resuming_line, run_kept};
use ded_model::fault::ParseFault;
use ded_model::limits;
use ded_run::{Setup, Status, Words};
use sqlite::{File, FileStore};
use sqlite_disk::Unknown;
use sqlite_std_file::OpenError;
use sqlite_trees::error::StoreError;
use std::env;
use std::io::ErrorKind;
use std::process::ExitCode;
use std::random::RandomSource;
use std::rt::Env;

/// The exit status where the file isn't opened.
const NOT_OPENED: u8 = 7;

/// The words behind the program's name, or how a run without them ends: where they aren't all texts, they are no
/// accepted list.
fn words(rt: &(impl Env + AllocGlobal)) -> Result<Words, Status> {
    let mut list = Vec::new(rt.alloc());
    let args = match env::args(rt) {
        Ok(args) => args,
        Err(error) if error.kind() == ErrorKind::OutOfMemory => return Err(Status::NoMemory),
        Err(_) => return Err(Status::BadWords),
    };
    for word in args.skip(1) {
        if list.push(word).is_err() {
            return Err(Status::NoMemory);
        }
    }
    Ok(Words { list })
}

/// A number that nobody who writes a script knows: one drawn at random, and 0 where the system gives none.
fn key(rt: &impl RandomSource) -> u64 {
    let mut bytes = [0; 8];
    match rt.fill_bytes(&mut bytes) {
        Ok(()) => u64::from_le_bytes(bytes),
        Err(_) => 0,
    }
}

/// Runs the program on its words, its standard input, its standard output and the file, and gives its exit status.
fn main(rt: HostRuntime) -> ExitCode {
    let words = match words(&rt) {
        Ok(words) => words,
        Err(status) => return ExitCode::from(status.exit_number()),
    };
    let limit = match limit_in(rt.alloc(), &words.list) {
        Ok(limit) => limit,
        Err(ParseFault::NotRead) => return ExitCode::from(Status::BadWords.exit_number()),
        Err(ParseFault::Memory) => return ExitCode::from(Status::NoMemory.exit_number()),
    };
    let Some(path) = words.list.first() else {
        return ExitCode::from(Status::BadWords.exit_number());
    };
    let mut sink = StdSink::new(rt.stdout());
    let files = match sqlite_std_file::open(&rt, path.as_str(), Unknown) {
        Ok(files) => files,
        Err(error) => {
            let refusal = match error {
                OpenError::Busy => NotOpened::Busy,
                OpenError::OutOfMemory => NotOpened::Failed(StoreError::OutOfMemory),
                OpenError::HotJournal | OpenError::Io(_) => NotOpened::Unreachable,
            };
            let _ = send(&mut sink, refusal_line(&refusal));
            return ExitCode::from(NOT_OPENED);
        }
    };
    let mut journal = match open_kept(rt.alloc(), files, key(&rt)) {
        Ok(journal) => journal,
        Err((refusal, _)) => {
            let _ = send(&mut sink, refusal_line(&refusal));
            return ExitCode::from(NOT_OPENED);
        }
    };
    let mut source = StdSource::new(rt.stdin());
    let setup = Setup {
        limit,
        input_limit: limits::INPUT_BYTES,
        keys: (key(&rt), key(&rt)),
    };
    let status = run_kept(rt.alloc(), &setup, &mut journal, &mut source, &mut sink);
    if let KeptStatus::NotResumed(why) = &status {
        let _ = send(&mut sink, resuming_line(why));
    }
    // What is committed is in the file or in the log, whether or not the log can be moved into the file.
    let _ = journal.close();
    ExitCode::from(status.exit_number())
}
