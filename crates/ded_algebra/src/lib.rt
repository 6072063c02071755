//! Plans: how a query is computed from stored relations, as an expression of the algebra of generalized relations.
//!
//! [`compile`] gives the plan of a goal. Atoms of names become scans; an argument that is no slot of its own gets a new
//! one, with a row that ties it to its value and a projection that takes it away. What else a goal has becomes a join,
//! a union, a complement or a projection.
//!
//! [`Relations`] is what a plan is evaluated over, of which [`Given`] is a list by name, and [`Evaluate`] is what
//! evaluates it. The tuples of a scan are over columns, each of which is read into a slot ([`column_pairs`]); of a
//! closed plan comes [`everywhere`] or [`nowhere`]. Each tuple that a look-up lends has been counted, and [`Relations`]
//! says how many steps it may take; [`near_in`] counts them on a ledger of its own.
//!
//! It stands on `ded_model`, which says what goals and plans mean, on `ded_row` for the rows of arguments, on
//! `ded_tuple` and `ded_packed` for the tuples that a plan is evaluated over, and on `ded_ranges` for windows of these.
//! Over every catalogue the plan holds exactly where the goal does, with lines, lengths and a rank of at most the
//! goal's; so what can be said of the widths of a formula holds of the work that its plan asks for.
#![tactic(auto)]

mod arguments;
mod compiling;
mod evaluation;
mod given;
mod lending;
mod pairing;
mod scanning;
mod trivial;

pub use compiling::compile;
pub use evaluation::{Evaluate, Relations};
pub use given::{Given, GivenRelation};
pub use lending::{near_among, near_in};
pub use pairing::column_pairs;
pub use trivial::{everywhere, nowhere};
