//! What a picture shows of a tuple.
//!
//! [`projected`] reads a tuple over two of its rational columns: the rows over these two alone that hold at a point
//! exactly where some values of all other columns make the tuple hold. Their ops stay, so that a drawing can tell sides
//! that belong to the tuple from sides that don't.
//!
//! The law [`shapes`] says that by its corners within a window nothing of a tuple is left out that the window has: one
//! that holds somewhere within it has a corner.
//!
//! It stands on `ded_polygon` for corners, on `ded_linear` and `ded_theme` for eliminations and verdicts, and on
//! `ded_atoms` for tuples as conjunctions.
#![tactic(auto)]

mod laws;
mod parts;
mod projecting;

pub use laws::shapes;
pub use projecting::{Projection, projected};
