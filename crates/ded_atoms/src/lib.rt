//! The theory of queries: rows and text atoms together, and tuples as conjunctions of it.
//!
//! [`Atoms`] is the theory that queries are evaluated over, and [`OrderAtoms`] that of order rows and text atoms, which
//! decides every conjunction. The [`laws`] say that a tuple is a conjunction of `Atoms`, read as `ded_model` reads it:
//! it holds at the same points, mentions the same slots, has the same lines, and its atoms are normal where the tuple
//! is. Atoms are wide only where they aren't narrow.
//!
//! [`OfTuples`] is any theory whose atoms stand for rows and text atoms. [`conjunction`] and [`conjunctions`] read
//! tuples as conjunctions of it, [`distinct`] keeps of equal conjunctions the first one, [`tuples`] writes conjunctions
//! of `Atoms` as normal tuples, and [`tuple_atoms`] gives order rows back as the atoms of tuples.
//!
//! [`reduced`] drops of normal tuples those that hold nowhere, of equal tuples all but the first one, and of each tuple
//! the atoms that its others imply. What is left holds at the same points, is in normal form, and has no new slots or
//! lines; each tuple that is narrow, or whose rows are all order rows, holds somewhere, and without any one of its
//! atoms it would hold at further points. No tuple stands twice. [`reduce_answer`] does the same with one tuple.
//! [`extended`] gives the exact bounds of each rational column over points and one tuple more, and [`holds_everywhere`]
//! reads the truth off tuples that mention no slot.
//!
//! Tuples whose rows are all order rows are reduced, and their bounds are found, by the theory of dense order, which
//! decides them whatever their numbers.
//!
//! It stands on `ded_reduce` for superfluous atoms, on `ded_genrel` for lists of conjunctions, on `ded_theory`,
//! `ded_linear`, `ded_order` and `ded_theme` for the atoms, on `ded_packed` and `ded_tuple` for stored and normal
//! tuples, and on `ded_box` for extents.
#![tactic(auto)]

mod closed;
mod extents;
pub mod laws;
mod numbers;
mod ordering;
mod own_slots;
mod reading;
mod reduction;
mod repeated;
mod rows;
mod theories;
mod writing;

pub use closed::holds_everywhere;
pub use extents::extended;
pub use numbers::following;
pub use ordering::{are_orders, tuple_atoms};
pub use own_slots::{first_slot, last_slot};
pub use reading::{AtomRef, OfTuples, conjunction, conjunctions};
pub use reduction::{reduce_answer, reduced};
pub use repeated::distinct;
pub use rows::OfRows;
pub use theories::{Atoms, OrderAtoms};
pub use writing::tuples;
