//! Answers a script from standard input on standard output, and writes tuples as tables.
//!
//! `dedale_table [--limit N]` writes one reply for each statement, and nothing to standard error. Its exit status
//! says how the run ended: 0 done, 1 done with some refusal, 2 words that aren't accepted, 3 a failed read, 4 a failed
//! write, 5 out of memory before the first read, 6 an input of more than 2^40 bytes. All that it does is
//! `ded_table::run`.
#![tactic(auto)]

use ded_io::{StdSink, StdSource};
use ded_run::{Status, Words};
use ded_table::run;
use std::env;
use std::io::ErrorKind;
use std::process::ExitCode;
use std::random::RandomSource;
use std::rt::Env;

/// The words behind the program's name, or how a run without them ends: where they aren't all texts, they are no
/// accepted list.
fn words(rt: &(impl Env + AllocGlobal)) -> Result<Words, Status> {
    let mut list = Vec::new(rt.alloc());
    let args = match env::args(rt) {
        Ok(args) => args,
        Err(error) if error.kind() == ErrorKind::OutOfMemory => return Err(Status::NoMemory),
        Err(_) => return Err(Status::BadWords),
    };
    for word in args.skip(1) {
        if list.push(word).is_err() {
            return Err(Status::NoMemory);
        }
    }
    Ok(Words { list })
}

/// A key by which names are hashed, that nobody who writes a script knows: one drawn at random, and 0 where the system
/// gives none.
fn key(rt: &impl RandomSource) -> u64 {
    let mut bytes = [0; 8];
    match rt.fill_bytes(&mut bytes) {
        Ok(()) => u64::from_le_bytes(bytes),
        Err(_) => 0,
    }
}

/// Runs the program on its words, its standard input and its standard output, and gives its exit status.
fn main(rt: HostRuntime) -> ExitCode {
    let words = match words(&rt) {
        Ok(words) => words,
        Err(status) => return ExitCode::from(status.exit_number()),
    };
    let mut source = StdSource::new(rt.stdin());
    let mut sink = StdSink::new(rt.stdout());
    let keys = (key(&rt), key(&rt));
    let status = run(rt.alloc(), &words, keys, &mut source, &mut sink);
    ExitCode::from(status.exit_number())
}
