//! An index over boxes: which of them meet a window.
//!
//! A [`BoxIndex`] keeps boxes under numbers. [`BoxIndex::look_up`] gives exactly the numbers of the boxes that share
//! values with a window, in ascending order, and looks at few others: with k boxes whose first intervals meet that of
//! the window and n boxes in all it takes at most (2k + 2)(d + 1) steps, where d is the count of binary digits of n.
//! One step is one node looked at; steps are counted by [`ded_model::steps::Steps`], which only proofs read.
//!
//! It is an interval tree over the first intervals: a search tree ordered by their low ends, whose nodes have the
//! greatest high end below them. The tree is a sorted list, whose middle is its root, so it is always level. It stands
//! on `ded_box`.
#![tactic(auto)]

mod entry;
mod index;
mod tree;

pub use entry::BoxEntry;
pub use index::BoxIndex;
