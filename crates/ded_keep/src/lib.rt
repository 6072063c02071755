//! Kept views: an answer that is held as a list of tuples, which follows the inserts and deletes of a relation.
//!
//! Where a plan scans the changed relation exactly once, under no complement and not in what a difference takes away
//! ([`is_additive`]), a kept answer only has to be extended by what the plan gives for the new tuple alone
//! ([`add_tuple`]). So an insert costs nothing of the size of the changed relation. A delete takes off what the plan
//! gives for the tuple that goes ([`remove_tuple`]): a kept tuple that doesn't meet it stays, and of each other one
//! only what the plan gives within it is made anew. What is put behind a list is left out where it is covered already
//! ([`put_behind`]). [`refresh`] computes an answer anew; a database does the same through `ded_query`, which gathers
//! what the plan scans. `laws` says why adding is right: an additive plan holds, where the name gains tuples, exactly
//! where it did or where it does for these alone. All other names that it scans have to mean the same, among them the
//! closure and the interior of the name, to which an insert does more than add.
//!
//! It stands on `ded_algebra` for what evaluates plans, on `ded_ranges` for windows of tuples, and on `ded_views` for
//! plans over catalogues that agree. What evaluates is a type that the caller names.
#![tactic(auto)]

mod additive;
mod alone;
mod behind;
mod keeping;
pub mod laws;
mod removing;
mod unlike;

pub use additive::is_additive;
pub use alone::OneTuple;
pub use behind::put_behind;
pub use keeping::{add_tuple, refresh};
pub use removing::remove_tuple;
