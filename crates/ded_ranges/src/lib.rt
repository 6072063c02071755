//! Ranges of the values of columns, rounded outward, and what may hold in them: limits, rows and tuples.
//!
//! A [`Reach`] has for each column a range, whose two [`End`]s are those between which the values lie, rounded outward.
//! A [`Limit`] is a row over the columns, and [`may_hold`] is false only where no values in the reach meet all limits.
//! A [`Probe`] asks the same of many reaches, and tells most of them apart by a box around the limits.
//!
//! A [`Window`] is what is asked of the values of columns: limits that they meet, and texts that stand in them. A
//! [`Sieve`] lets a tuple pass unless a row of it can't hold in the box of the window, or a text of the window
//! contradicts it: so it lets every tuple pass that holds somewhere in the window. [`reach_of`] is a reach of a tuple,
//! by which it is kept in an index.
//!
//! It stands on `ded_num` for sums and products that stay short, on `ded_packed` for tuples that are lent, and on
//! `smallvec`, in which the ranges of a reach are kept.
#![tactic(auto)]

mod end;
mod limit;
mod number;
mod probe;
mod reach;
mod sieve;
mod term;
mod tuple;
mod window;

pub use end::End;
pub use limit::{Limit, may_hold};
pub use probe::Probe;
pub use reach::{Range, Reach, ceil_of, floor_of};
pub use sieve::Sieve;
pub use tuple::reach_of;
pub use window::Window;
