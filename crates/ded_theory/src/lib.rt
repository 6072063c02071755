//! Theories: what the algebra of generalized relations asks of the atoms of a tuple.
//!
//! A theory says what its atoms mean by functions that only proofs read: where an atom holds, which slots it mentions,
//! its cell at a point, its lines, and which atoms are in normal form. It copies, renames and negates atoms, eliminates
//! a slot from a conjunction, tells whether something satisfies one, and between which bounds a slot stands. [`Both`]
//! puts a theory of numbers and a theory of texts together, and its laws follow from theirs.
//!
//! It stands on `ded_model` for points, atoms and lines. Whatever is written over any [`Theory`] is proved for all of
//! them.
#![tactic(auto)]

mod answers;
mod both;
mod theory;

pub use answers::{Eliminated, Span, Verdict};
pub use both::Both;
pub use theory::{OfNumbers, OfTexts, Theory};
