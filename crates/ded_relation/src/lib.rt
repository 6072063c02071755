//! One relation: its tuples, stored under their numbers, and the index by which those near a window are found.
//!
//! A [`Relation`] has a heading, its tuples in ascending order of their numbers, packed, and how many inserts it has
//! accepted: each insert gives the next number, whatever was deleted. It knows no name, neither its own nor that of a
//! view. A [`SharedRelation`] is held by several, and copied when one of them changes it.
//!
//! Beside its tuples it keeps an index of their reaches, and of the texts that they fix in their columns. So the tuples
//! that may hold in a window are looked up and lent, where it has limits or a text that few of them may have, and all
//! others are passed over. Contracts see the entries of the reaches, and how many of them stand in no tree, but not the
//! texts: they say that no tuple is lost that holds somewhere in the window, and how many nodes, entries and tuples a
//! look-up in one column looks at. A region that is bound by slanted rows alone is kept by its exact bounds.
//!
//! [`NameHashing`] is how texts are hashed here, and names by whoever finds relations by theirs.
//!
//! It stands on `ded_ranges`, `ded_hull` and `ded_linear` for the reaches, and on `ded_packed` for the tuples.
#![tactic(auto)]

mod copying;
mod ends;
pub mod finding;
mod fixed;
mod hashing;
mod index;
mod relation;
mod shared;
mod texts;

pub use hashing::NameHashing;
pub use relation::Relation;
pub use shared::SharedRelation;
