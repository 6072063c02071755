//! The plan of a goal: compiled, and rewritten so that what can be left out early is left out early.
//!
//! [`plan`] is what evaluates and what is shown. `laws` ties it to formulas: the plan of the goal of an accepted
//! formula is a plan of the formula over every well formed catalogue in which the formula's names have the same kinds
//! and headings. [`scanned_names`] gives the names that a plan scans, and [`used_names`] those that a goal uses.
//! [`scans_within`] gives the scans of a plan, each with a tuple over its slots: what a name means outside of the tuple
//! makes no difference to the plan.
//!
//! [`rewrite`] gives a plan in which each projection stands as deep as it can: over no union, over no plan that doesn't
//! mention its slot, and over no join with a member that doesn't. Joins stand in no joins, rows beside no union,
//! complements beside no other member, and no join or union has one part alone. No projection moves past another one.
//!
//! It stands on `ded_model`, which says what plans mean and which are pushed in this sense, on `ded_algebra` for the
//! plan of a goal, on `ded_sorts` for what is true of the goals of formulas, and on `ded_tuple` for normal tuples. What
//! comes out holds exactly where the plan does over every catalogue, with the same scans, and is no wider. A plan is
//! rewritten from its parts on: each kind of plan has a function from pushed parts to a pushed plan, so no rule is
//! tried again after another.
#![tactic(auto)]

mod distributing;
mod joining;
pub mod laws;
mod names;
mod planning;
mod projecting;
mod rewriting;
mod scans;
mod slots;

pub use names::{scanned_names, used_names};
pub use planning::plan;
pub use rewriting::rewrite;
pub use scans::{ScanWithin, scans_within};
