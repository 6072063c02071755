//! Questions over a catalogue, and their answers.
//!
//! [`is_true`] answers a closed question, [`answer`] one over a heading by normal tuples, and [`view_tuples`] a view.
//! Each plans the goal of the formula ([`planned_view`] is handed the plan), gathers the views that the plan scans,
//! evaluates the plan over them and over the relations, which are read where they stand ([`Over`]), and reduces what
//! comes out. Numbers get too long only where the formula isn't tight.
//!
//! A view that several scans are of is gathered as its answer, once. One that a single scan is of is evaluated near
//! that scan: within a tuple that holds wherever the plan asks for it. What comes of it is right there, and is taken
//! away after the evaluation.
//!
//! A question that asks only whether a view has a point is asked of the view's own goal, with a quantifier for each
//! column, so that it ends where one is found. Where that is too wide, it is asked of the whole view. What was given
//! till then stays, and a view that was too wide as a whole isn't evaluated again in the question.
//!
//! The catalogue is read as a `Snapshot`: as it is, or as a change will make it. Answers of views that are held already
//! are handed in as relations under the views' names ([`held_view`]). They are read in place of the views, without a
//! copy, and are the same afterwards. [`give_names`] gathers views alone.
//!
//! It stands on `ded_resolve` for the goals of formulas, on `ded_plan` for plans and their scans, on `ded_algebra` for
//! what they are evaluated over and by, on `ded_topology` for closures and interiors, on `ded_atoms` for reduced
//! tuples, on `ded_theory` and `ded_tuple` for tuples over other slots, on `ded_catalog` for what names stand for, on
//! `ded_ranges` for windows of tuples, and on `ded_views` for what views mean. What evaluates is a type that the caller
//! names.
#![tactic(auto)]

mod answering;
mod columns;
mod gathering;
mod giving;
mod made;
mod near;
mod over;
mod strata;
mod tried;
mod views;
mod within;
mod witness;

pub use answering::{answer, give_names, is_true, planned_view, view_tuples};
pub use over::Over;
pub use views::held_view;
