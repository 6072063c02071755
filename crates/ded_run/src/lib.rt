//! Runs a script: reads it from a source, answers each statement as it ends, and writes the replies to a sink.
//!
//! A session answers the statements (`OneSession`), in the loop of `ded_dialogue`. [`serve`] runs it over a source:
//! where it is done, the whole script was read, and the sink holds what it held, then the text of one reply for each
//! statement, in order, each by the rules of `ded_session` (`session_protocol`). Where a device fails, or the script is
//! too long, the contract says what stands written. [`Status::exit_number`] is the program's exit status. [`make`] runs
//! a script that is made (`specs/Made.antt`), and writes the replies to its questions alone. [`run`] has `clap` read
//! the words of the command line first (`specs/Words.antt`), as [`options_in`] does for other programs; [`has_dashes`],
//! [`limit_of`] and [`number_of`] read parts of words.
//!
//! It stands on `ded_dialogue` for the loop, on `ded_session` for replies and their texts, and on `ded_io` for the
//! source and the sink.
#![tactic(auto)]

mod made;
mod one_session;
mod program;
mod words;

pub use ded_dialogue::Status;
pub use program::{Setup, make, run, serve};
pub use words::{Options, Words, has_dashes, limit_of, number_of, options_in};
