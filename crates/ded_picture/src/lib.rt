//! What a picture shows of figures.
//!
//! [`labels_of`] gives each first text a colour, by its place, and [`legend_of`] its entry. [`window_of`] is what is
//! seen: the window that is asked for, or one around all corners. [`parts_of`] gives each figure its piece with its
//! exact corners within the window; [`marks_of`] draws them on a [`Sheet`], as polygons, lines and discs, and
//! [`strokes_of`] their sides, as they are drawn among all pieces of the colour. A figure whose numbers are beyond the
//! exact range is counted as wide, and only such a one.
//!
//! It stands on `ded_figures` for figures, on `ded_polygon` for corners, `ded_strokes` for pieces and `ded_layers` for
//! lines of sides, on `ded_axes` for windows and places, on `ded_svg` for pictures as data, on `ded_atoms` for the next
//! number, and on `indexmap` for the texts of colours.
#![tactic(auto)]

mod colours;
mod layers;
mod marks;
mod parts;
mod sheet;
mod strokes;
mod windowing;

pub use colours::{labels_of, legend_of};
pub use marks::marks_of;
pub use parts::{Shown, ShownParts, parts_of};
pub use sheet::Sheet;
pub use strokes::strokes_of;
pub use windowing::window_of;
