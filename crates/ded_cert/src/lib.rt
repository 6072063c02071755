//! Certificates: what shows of two tuples that they have no common point, and can be checked by anyone.
//!
//! Texts that don't fit show it, and so do numbers, one for each row: where the rows times these numbers come to a row
//! that has no slot and is false, they hold nowhere together. A certificate is checked by multiplications and sums
//! alone, however it was found.
#![tactic(auto)]

mod certifying;
mod checking;
mod choosing;
pub mod laws;
mod pairs;
mod projecting;
mod refuting;
mod seeking;
mod tracing;
mod verifying;
mod weak;

pub use certifying::{Outcome, certify};
pub use checking::check;
pub use pairs::{Disjointness, certify_all};
pub use verifying::verify_all;
