//! The closure and the interior of lists of conjunctions of rows and text atoms.
//!
//! A point is close to a list where for each distance above 0 the list holds at a point with the same texts whose
//! rational values are nearer. It is inside where for some distance the list holds at all such points. [`closure`]
//! drops the conjunctions that hold nowhere and makes the strict rows of the others weak; [`interior`] is the
//! complement of the closure of the complement. Both are exact, mention only slots that their operand mentions, and
//! have lines among its lines. They give up where it isn't known whether a conjunction holds anywhere: the closure only
//! where a conjunction isn't narrow, the interior only where the list of all atoms isn't.
//!
//! [`closed_tuples`] and [`inner_tuples`] do the same with tuples and give tuples without superfluous atoms, over the
//! same heading. Of names that are made of other names the [`laws`] say that these tuples stand for them, and that the
//! made name clashes where such tuples aren't narrow.
//!
//! It stands on `ded_genrel` and `ded_complement` for lists of conjunctions, on `ded_atoms` for the atoms, the tuples
//! of a list and reduced tuples, and, for its laws alone, on `ded_width` and `ded_views`. That weak rows are the
//! closure is a law of `ded_model`.
#![tactic(auto)]

mod closing;
mod inner;
pub mod laws;
mod tuples;
mod weakening;

pub use closing::closure;
pub use inner::interior;
pub use tuples::{closed_tuples, inner_tuples};
