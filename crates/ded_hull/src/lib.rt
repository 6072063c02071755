//! A spatial index: trees of hulls over reaches, looked up by half planes.
//!
//! [`Hulls`] keeps reaches under numbers, and [`Hulls::look_up`] gives exactly the numbers of those in which limits may
//! hold, in ascending order. It counts each node of a tree and each entry that it looks at, with
//! [`ded_model::steps::Steps`]: how many these are is bounded in one column.
//!
//! What may hold in a reach may hold in each reach that contains it, so a tree whose hull doesn't pass is passed over
//! and loses nothing. Entries stand in a few lists, each with a tree over it, and move to another when lists become
//! one. None is taken out by itself: [`Hulls::retain`] leaves out, all at once, those whose numbers nothing has any
//! more.
//!
//! It stands on `ded_ranges` for reaches, limits and probes.
#![tactic(auto)]

mod entry;
mod hulls;
mod tree;

pub use entry::ReachEntry;
pub use hulls::Hulls;
