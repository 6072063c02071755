//! Answers a script from standard input, and draws the tuples of the answers as a picture on standard output.
//!
//! `dedale_draw [--limit N] [--columns X,Y] [--window X0,Y0,X1,Y1] [--size N] [--time X]` writes one picture as SVG
//! when the script has ended, and nothing to standard error. Its exit status says how the run ended: 0 done, 1 done
//! with some refusal or a tuple that isn't drawn as its numbers are too long, 2 words that aren't accepted, 3 a failed
//! read, 4 a failed write, 5 out of memory, 6 an input of more than 2^40 bytes. Nothing is written where it is 2, 3, 5
//! or 6. All that it does is `ded_draw::run`.
#![tactic(auto)]

use ded_draw::run;
use ded_io::{StdSink, StdSource};
use ded_run::{Status, Words};
use std::env;
use std::io::ErrorKind;
use std::process::ExitCode;
use std::random::RandomSource;
use std::rt::Env;

/// The words behind the program's name, or how a run without them ends: where they aren't all texts, they are no
/// accepted list.
fn words(rt: &(impl Env + AllocGlobal)) -> Result<Words, Status> {
    let mut list = Vec::new(rt.alloc());
    let args = match env::args(rt) {
        Ok(args) => args,
        Err(error) if error.kind() == ErrorKind::OutOfMemory => return Err(Status::NoMemory),
        Err(_) => return Err(Status::BadWords),
    };
    for word in args.skip(1) {
        if list.push(word).is_err() {
            return Err(Status::NoMemory);
        }
    }
    Ok(Words { list })
}

/// A key by which names are hashed, that nobody who writes a script knows: one drawn at random, and 0 where the system
/// gives none.
fn key(rt: &impl RandomSource) -> u64 {
    let mut bytes = [0; 8];
    match rt.fill_bytes(&mut bytes) {
        Ok(()) => u64::from_le_bytes(bytes),
        Err(_) => 0,
    }
}

/// Runs the program on its words, its standard input and its standard output, and gives its exit status.
fn main(rt: HostRuntime) -> ExitCode {
    let words = match words(&rt) {
        Ok(words) => words,
        Err(status) => return ExitCode::from(status.exit_number()),
    };
    let mut source = StdSource::new(rt.stdin());
    let mut sink = StdSink::new(rt.stdout());
    let keys = (key(&rt), key(&rt));
    let status = run(rt.alloc(), &words, keys, &mut source, &mut sink);
    ExitCode::from(status.exit_number())
}
