//! Answers the tagged statements of many sessions from standard input on standard output.
//!
//! `dedale_shared` takes no words. It writes one reply for each statement, and nothing to standard error. Its exit
//! status says how the run ended: 0 done, 1 done with some refusal, 2 any word, 3 a failed read, 4 a failed write, 5
//! out of memory before the first read, 6 an input of more than 2^40 bytes. All that it does is
//! `ded_shared::run_shared`.
#![tactic(auto)]

use ded_io::{StdSink, StdSource};
use ded_shared::{SharedStatus, run_shared};
use std::env;
use std::io::ErrorKind;
use std::process::ExitCode;
use std::random::RandomSource;
use std::rt::Env;

/// How many words stand behind the program's name, or how a run without them ends: where they aren't all texts, there
/// is one.
fn words(rt: &(impl Env + AllocGlobal)) -> Result<usize, SharedStatus> {
    match env::args(rt) {
        Ok(args) => Ok(args.skip(1).count()),
        Err(error) if error.kind() == ErrorKind::OutOfMemory => Err(SharedStatus::NoMemory),
        Err(_) => Err(SharedStatus::BadWords),
    }
}

/// A key by which names are hashed, that nobody who writes a script knows: one drawn at random, and 0 where the system
/// gives none.
fn key(rt: &impl RandomSource) -> u64 {
    let mut bytes = [0; 8];
    match rt.fill_bytes(&mut bytes) {
        Ok(()) => u64::from_le_bytes(bytes),
        Err(_) => 0,
    }
}

/// Runs the program on its words, its standard input and its standard output, and gives its exit status.
fn main(rt: HostRuntime) -> ExitCode {
    let words = match words(&rt) {
        Ok(words) => words,
        Err(status) => return ExitCode::from(status.exit_number()),
    };
    let mut source = StdSource::new(rt.stdin());
    let mut sink = StdSink::new(rt.stdout());
    let keys = (key(&rt), key(&rt));
    let status = run_shared(rt.alloc(), words, keys, &mut source, &mut sink);
    ExitCode::from(status.exit_number())
}
