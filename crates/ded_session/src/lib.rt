//! One statement at a time: what it is answered, and what it makes of the catalogue.
//!
//! `specs/` has the rules of the language. `Causes` says when a statement is refused and with which number, `Steps`
//! what an accepted one is answered and what it changes, `Runs` which replies a whole script may get, `Keeping` what a
//! statement makes of kept views and their lists, `Histories` what many statements make of them, and `Carrying` what is
//! left to refuse a command that the names accept. [`Session::step`] takes one step of these rules: it reads the
//! command, checks it over the names (`command`), and then changes the database (`changes`), shows what a relation
//! stores (`shown`) or its bounds (`boxes`), answers what a formula asks (`questions`), or certifies that relations
//! have no common point (`certificates`). [`Session::answer`] takes one for a command that was read before.
//! [`write_reply`] writes the text of a reply (`specs/Texts.antt`).
//!
//! It stands on `ded_syntax` for commands, on `ded_resolve` for commands by slots, on `ded_database` for the catalogue
//! and the lists of kept views, on `ded_packed` for the tuples of the catalogue, on `ded_plan` for plans, on
//! `ded_atoms` for bounds, on `ded_cert` for certificates, on `ded_print` for texts and on `ded_model` for what
//! formulas mean. That a run leads to a well formed catalogue ([`laws`]) stands on `ded_width`, `ded_reread` and
//! `ded_reread` besides, for the tuples that statements insert.
#![tactic(auto)]

mod boxes;
mod certificates;
mod changes;
mod command;
pub mod laws;
mod outcome;
mod questions;
mod reply;
mod session;
mod shown;
mod statement;
mod stored;
mod text;

pub use reply::Reply;
pub use session::Session;
pub use stored::StoredTuples;
pub use text::write_reply;
