//! What rows are made into: their normal form, their negation, combinations of two, and rows over other slots.
//!
//! A row compares a sum of coefficients times slots, plus a constant, with zero. [`normal`] gives it in lowest numbers,
//! and [`order`] is the order in which normal rows stand in a tuple. [`negate`] gives rows that exclude each other and
//! hold exactly where the row doesn't. [`mix`] adds multiples of two rows so that a slot falls out, which is the step
//! of an elimination. [`rename`] reads a row over other slots.
//!
//! It stands on `ded_num` for exact arithmetic and on `ded_model` for rows and their meaning. Each answer is the value
//! of a function of `ded_model` or of `specs/`, and holds at the points that its contract says; `laws` has what is true
//! of normal rows alone. Running out of memory, and numbers that get too long in [`mix`], are the only reasons to give
//! no row.
#![tactic(auto)]

pub mod laws;
mod lowest;
mod merging;
mod mixing;
mod negation;
mod ordering;
mod renaming;

pub use lowest::normal;
pub use mixing::mix;
pub use negation::negate;
pub use ordering::order;
pub use renaming::rename;
