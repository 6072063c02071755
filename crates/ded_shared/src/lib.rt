//! Sessions that share one catalogue, in one list of tagged statements.
//!
//! A statement is the number of a session, a colon, and a command, or `begin`, `commit` or `abort`. Outside of a
//! transaction it works on the shared catalogue. A transaction has a catalogue of its own, a copy of the shared one at
//! its begin. Its commit makes its accepted changes on the shared catalogue, unless a name that it touched was changed
//! since its begin.
//!
//! `specs/Tags` says how a tagged statement is spelled, `specs/State` what stands between two statements, and
//! `specs/Rules` what a statement is answered and what it makes of that. [`Shared::step`] is one step of these rules,
//! and [`run_shared`] a run over an input. `specs/Touching` says which names a command touches over a catalogue and
//! which it changes where it is accepted, and `specs/Agreeing` when two catalogues agree on names. [`laws`] say that a
//! statement may get the same reply over each catalogue that agrees on the names that it touches and leaves all other
//! names as they are, that the statements outside of transactions and those of committed ones, in the order of their
//! ends (`specs/Events`), are steps of one session with the same replies, and which statement made a commit conflict
//! (`specs/Culprits`).
//!
//! It stands on `ded_session` for what statements do, for their replies and the texts of these, on `ded_views` for what
//! names reach, on `ded_syntax` and `ded_lex` for tags, and on `ded_dialogue` for the loop.
#![tactic(auto)]

mod answering;
pub mod laws;
mod least;
mod names;
mod program;
mod reply;
mod shared;
mod tag;
mod touching;
mod transaction;
mod working;

pub use program::{SharedStatus, run_shared};
pub use reply::SharedReply;
pub use shared::Shared;
