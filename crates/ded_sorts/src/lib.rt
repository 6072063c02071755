//! Which commands are accepted over the names that are defined, and what formulas mean by slots.
//!
//! `check` refuses a command for the least of the reasons that the command and the names decide: too many columns, a
//! name given twice, unknown or taken, another kind or number of columns, an unbound variable, a text in the place of a
//! number, a name that is still used, a missing tuple, a view of too high a level. It allocates nothing but what is
//! known of a name, and the name that a closure or an interior is made of. A formula names its variables; its goal has
//! a numbered slot for each. The laws say that a goal holds at a point by slots exactly where the formula does at that
//! point by names, and that goals are over sorted slots.
//!
//! It stands on `ded_model`, whose specifications say what formulas, goals and points are, and on the laws of numbers
//! of `ded_num`.
#![tactic(auto)]

mod atoms;
mod causes;
mod checking;
mod columns;
mod facts;
pub mod laws;
mod names;
mod scope;
mod shape;
mod sorts;
mod uses;

pub use checking::check;
pub use names::{Known, Names};
