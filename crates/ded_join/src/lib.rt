//! The meet of two lists of conjunctions through an index over boxes.
//!
//! [`join`] holds where both lists do, as `GenRel::meet` does. But it doesn't pair each conjunction of the one with
//! each of the other: on given rational slots it puts a box of exact bounds round each conjunction, indexes those of
//! the second list, and pairs each conjunction of the first list with those only whose boxes share values with its own;
//! [`index_over`] makes the index once for many first lists, of which [`join_over`] takes one at a time.
//! [`join_inhabited`] keeps of these pairs only what some point may satisfy; where no slots are given and texts tell
//! most of the second list's conjunctions apart, it looks at pairs of one text alone, and at those without one.
//! [`join_shorter`], where the second list is small, merges atoms of which one implies another and keeps no pair that
//! lies within another one, and where the pairs are still many it takes the join by the complement of the second list.
//!
//! It stands on `ded_genrel` for lists of conjunctions over any theory and the boxes around them, on `ded_index` for
//! the look-ups, and on `ded_complement` for complements and differences.
#![tactic(auto)]

mod condensing;
mod indexing;
mod inhabited;
mod joining;
mod merging;
mod near;
mod outside;
mod texts;

pub use indexing::index_over;
pub use inhabited::join_inhabited;
pub use joining::{join, join_counted, join_over};
pub use outside::{is_small, join_shorter};
