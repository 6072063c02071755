//! The theory of linear constraints over the rationals: [`Linear`], whose atoms are rows in normal form.
//!
//! A conjunction of rows is a convex polyhedron. Whether it has a point, and between which values a slot stands in it,
//! is found by eliminating slot after slot, after Fourier and Motzkin, until each row mentions one slot at most. Then
//! each slot has an interval of values, and their ends are compared exactly. Each answer is exact, and it is left open
//! only where a number on the way would have more than 127 digits, which only wide rows come to. Of many rows a point,
//! or numbers that refute them, are looked for before anything is eliminated, and so are the ends of a slot. Where an
//! elimination makes many rows of fewer, those that the others are found to imply are dropped, so that the next one has
//! less to combine.
//!
//! [`refute`] and [`bounds`] take the way of combining two rows as a parameter, a `Mixing`, so that a theory of rows of
//! some kind, whose combinations are never refused, answers by them too. `Linear` combines any rows.
//!
//! It stands on `ded_row` for rows, on `ded_elimination` for one elimination, on `ded_simplex` for what shows the
//! verdict and the bounds of many rows, on `ded_weighing` for its check, and on `ded_box` for the comparison of bounds.
//! What a theory promises is `ded_theory`'s to say.
#![tactic(auto)]

mod bounding;
mod directions;
mod implication;
mod interval;
mod kept;
mod order;
mod pruning;
mod theory;
mod verdict;

pub use bounding::bounds;
pub use theory::Linear;
pub use verdict::refute;
