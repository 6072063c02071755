//! Plans evaluated over given relations.
//!
//! The evaluation goes from the leaves of a plan to its root with the operations on lists of conjunctions: scans rename
//! stored tuples, joins go through an index over boxes, differences and complements are cut piece by piece, and
//! projections eliminate. What a question fixes goes down to the scans as a window ([`evaluate_within`]): tuples that
//! hold nowhere in it needn't be read, and a part of a join that finds few tuples is looked up for each conjunction of
//! the parts before it. A join of two scans begins with the one that has far fewer tuples. Pairs of a join that hold
//! nowhere together with the window's rows across its two sides are left out. Conjunctions that no point satisfies are
//! dropped at once, and of equal ones that a union or a projection makes only the first is kept. It is written over any
//! theory whose atoms stand for rows and text atoms (`ded_atoms::OfTuples`). The list that it gives holds exactly where
//! the plan does, mentions only slots that the plan mentions freely, and has lines among the plan's; it gives up only
//! where the plan clashes. Whether a conjunction stands twice in it is promised nowhere.
//!
//! [`eval`] evaluates over rows and text atoms. Only where that gives up the plan is looked through, with all tuples of
//! the names that it scans: if all rows are order rows, it is evaluated once more by the theory of dense order, which
//! decides them whatever their numbers. [`Engine`] gives what comes out as normal tuples, and tries a closed plan
//! before it evaluates it.
//!
//! By its [`laws`] the lists of conjunctions of rows and text atoms that an operation takes are wide only where all
//! their atoms together aren't narrow.
//!
//! It stands on `ded_atoms` for tuples as conjunctions of a theory, on `ded_algebra` for what a plan is evaluated over
//! and what an evaluation promises, on `ded_join`, `ded_complement` and `ded_genrel` for the operations, on
//! `ded_theory` for the atoms, on `ded_tuple` and `ded_packed` for normal and stored tuples, on `ded_ranges` for
//! windows, and on `ded_index` for the index over boxes.
#![tactic(auto)]

mod across;
mod attaining;
mod beside;
mod deciding;
mod engine;
mod evaluation;
mod finding;
mod fronts;
pub mod laws;
mod lookups;
mod meeting;
mod over_atoms;
mod scanning;
mod slots;
mod step;
mod tried;
mod window;

pub use engine::Engine;
pub use evaluation::{evaluate_counted, evaluate_within};
pub use over_atoms::{eval, eval_counted};
