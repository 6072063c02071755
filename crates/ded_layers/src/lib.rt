//! The lines of a layer: how the sides of all pieces of one colour are drawn.
//!
//! A [`Part`] is a piece with the corners of its shape within a window, and a layer is a list of parts. [`lines`] gives
//! the lines of each side of each part: where pieces of the layer go on across the side it isn't drawn, else it is
//! solid where its points are in the layer, and dashed where they are not. That is told of all pieces of the layer.
//!
//! Few of them are looked at: an index of `ded_hull` keeps for each part ranges in which its points within the window
//! lie, and gives for the corners of a part those that may have points between them. That a corner is utmost is told by
//! two borders through it.
#![tactic(auto)]

mod copying;
mod index;
mod layer;
mod part;
mod query;
mod support;

pub use layer::lines;
pub use part::Part;
