//! Which figures a picture has of the tuples of an answer.
//!
//! A [`Look`] says over which two rational columns a picture is drawn, and [`axes_of`] which two these are of a
//! heading. [`add_sights`] adds what there is to be drawn of each tuple, in order: nothing where it holds nowhere, else
//! its rows over these two columns with the tuple's first text and its text as it is printed; a tuple whose numbers are
//! too long is told as that, and only such a one.
//!
//! It stands on `ded_shapes` for tuples over two columns, on `ded_dump` for texts in memory, and on `ded_model`.
#![tactic(auto)]

mod axes;
mod figure;
mod sight;

pub use axes::{Axes, Look, axes_of};
pub use figure::Figure;
pub use sight::{Sight, add_sights, add_stored_sights};
