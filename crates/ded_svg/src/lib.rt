//! Pictures as data, and their text as SVG.
//!
//! A [`Picture`] has shapes and strokes in colours, axes with ticks, a legend, and texts for readers who don't see it.
//! `specs/Markup.antt` says what the text of a tree of markup is, `specs/Pictures.antt` which tree a picture is: so the
//! text is well formed by what it is, and each shape, stroke, tick and entry has its element, in order.
//! [`picture_text`] writes it. Texts may have any bytes. A [`Coordinate`] is in hundredths of a unit, and is the
//! nearest one to a number. The [`laws`] say what an escaped text is made of, and how near and how readable a
//! coordinate is.
//!
//! It stands on `ded_dump` for a text in memory, on `ded_model` for names and fractions, and on `ded_num` for a product
//! that may be long.
#![tactic(auto)]

mod around;
mod coordinate;
mod element;
mod escape;
pub mod laws;
mod mark;
mod palette;
mod picture;
mod svg;

pub use coordinate::Coordinate;
pub use picture::{
    ColouredLine, ColouredShape, Corners, LegendEntry, Line, Picture, Point, Shape, Tick,
};
pub use svg::picture_text;
