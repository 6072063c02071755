//! Questions over a relation whose tuples are dealt out to parts.
//!
//! A plan [`distributes`] over a name that it scans exactly once, under no complement and not in what a difference
//! takes away, where it scans neither the closure nor the interior of the name. `laws` says what that is for: where the
//! tuples of the relation are dealt out to catalogues that are alike otherwise, the plan holds over the whole exactly
//! where it holds over one of the parts. So the answer to a question is the union of the parts' answers, a closed
//! formula is true where it is true of one of the parts, and `forall` with `implies` is true where no part has a
//! counterexample. A question that reaches the relation by way of views is asked of the parts as it is: each part has
//! the views, over its own tuples.
//!
//! It stands on `ded_keep`, which says when a plan is additive in a name, on `ded_views` for names that other tuples of
//! a relation leave alone, on `ded_plan` for the plans of formulas, and on `ded_laws`, by which every formula is
//! decided.
#![tactic(auto)]

mod distributing;
pub mod laws;

pub use distributing::distributes;
