//! Normal tuples: atoms in the one order in which a tuple has them, each once, and none true.
//!
//! [`normal_tuple`] makes the normal tuple of atoms that are normal one by one, and [`put`] sets one more atom into a
//! tuple. [`is_true`] tells the rows that no tuple has.
//!
//! It stands on `ded_model`, which says what a normal tuple is, and on `ded_row` for the order of rows. Running out of
//! memory is the only reason to give no answer.
#![tactic(auto)]

mod normal;
mod placing;

pub use normal::{is_true, normal_tuple};
pub use placing::put;
