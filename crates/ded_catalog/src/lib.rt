//! The catalogue: the relations and views that the statements so far have defined.
//!
//! Names are found by their hash, and are linked in order of definition. With each stands the number of the views that
//! speak of it. So whether it is used is known at once, and it is dropped in the same time however many names there
//! are. Under a name stands a relation of `ded_relation`, which copies of the catalogue share until one changes it, or
//! a view: its formula as written, the goal of it and the names that it speaks of. Contracts see a [`Catalogue`] as the
//! catalogue of `ded_model` that it stands for. It is well formed: names are new, tuples are normal and over their
//! columns, views are accepted over the entries before them. Each change is one of `ded_sorts`, and a refused one
//! changes nothing.
//!
//! A [`Snapshot`] reads a catalogue as it is, or as it will be when a tuple is inserted into a relation or deleted from
//! one. So what depends on the relations can be made anew before the change is. It borrows the catalogue and copies
//! nothing. Contracts see it as the catalogue that it stands for, which is well formed, and which is the one that the
//! insert or the delete makes.
//!
//! It stands on `ded_relation` for each relation and the look-ups in it, on `ded_sorts` for what is known of names and
//! what changes them, on `lru` for the linked names, and on `indexmap`.
#![tactic(auto)]

mod catalogue;
mod change;
mod entries;
mod mentions;
mod snapshot;
mod stored;
mod table;
mod users;

pub use catalogue::Catalogue;
pub use snapshot::Snapshot;
