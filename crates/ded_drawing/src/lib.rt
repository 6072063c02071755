//! The picture of what the replies to a script tell.
//!
//! [`drawing_of`] draws the tuples of all answers and listings over two of their columns, in a colour for each first
//! text: each tuple is a polygon, a line or a disc by its exact corners within the window, its sides are drawn as they
//! are among all tuples of the colour, and other replies stand in the description. Where no window is asked for, it is
//! one around all corners. A tuple whose numbers are too long to be drawn is counted in the description, and only such
//! a one. `specs/Drawings.antt` says which picture it is.
//!
//! It stands on `ded_figures` and `ded_picture` for what is drawn of tuples, on `ded_axes` and `ded_ticks` for the
//! borders, on `ded_svg` for pictures as data, on `ded_session` for replies and their texts, and on `ded_dump` for
//! texts in memory.
#![tactic(auto)]

mod description;
mod drawing;
mod sighting;
mod style;

pub use drawing::{Drawing, drawing_of};
pub use style::Style;
