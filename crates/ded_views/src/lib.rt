//! Laws on names: what an entry of a catalogue means is read over the whole catalogue as over the entries before it.
//!
//! `laws` says what the name of a relation and of a view means, what is measured of it, what is known of it and what it
//! reaches, all over one catalogue; when a plan holds alike over two catalogues; which names a new entry, an entry that
//! is dropped and other tuples of a relation leave alone; and what an insert makes of its relation. The crate has laws
//! alone, on the definitions of `ded_model` and on the changes of `ded_sorts`.
#![tactic(auto)]

pub mod laws;
