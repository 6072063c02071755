//! Runs a script as `ded_run` does, and writes the tuples of its replies as tables.
//!
//! A session answers the statements, in the loop of `ded_dialogue`. Of an answer with tuples and of the tuples of a
//! relation a table is written (`ded_cells`), and every other reply as it is; where there is no memory for a table, the
//! refusal that says so (`specs/Tabled.antt`). [`serve`] runs it over a source: where it is done, the whole script was
//! read, and the sink holds what it held, then what is written of one reply for each statement, in order. Where a
//! device fails, or the script is too long, the contract says what stands written. [`run`] has the words of the command
//! line read first: those of `ded_run` but for scripts that are made.
//!
//! It stands on `ded_run` for replies that are no tables and for the words, on `ded_dialogue` for the loop, on
//! `ded_session` for replies, on `ded_cells` for tables, and on `ded_io` for the source and the sink.
#![tactic(auto)]

mod program;
mod session;
mod tabled;

pub use program::{run, serve};
