//! The search for what shows of rows that they hold somewhere, or nowhere, and between which values a slot stands where
//! they do.
//!
//! What it comes upon, a point or numbers, one for each row, is handed to the checks of `ded_weighing`, and [`told`]
//! says only what passes them. So are the least and the greatest value of a slot, where there are such, by [`extent`]:
//! what attains it, comes near it or goes on without end is a point or a direction, and numbers refute the rows
//! together with one that says that the slot is beyond.
//!
//! Where equalities of one slot each fix all slots, their point alone is tried. Otherwise both are looked for by the
//! dual simplex, over whole numbers ([`find`]). Of the search nothing is promised but that it is safe and ends. Whoever
//! asks of nearly the same rows again and again hands a [`Hint`] from one question to the next ([`told_from`]).
//!
//! It stands on `ded_weighing` for the checks, on `ded_theory` for verdicts and on `ded_box` for the sides of a slot.
#![tactic(auto)]

mod ends;
mod exact;
mod extremes;
mod few;
mod fixed;
mod fraction;
mod hint;
mod reaching;
mod reading;
mod search;
mod table;
mod telling;
mod variable;

pub use hint::Hint;
pub use reaching::extent;
pub use search::{Found, find};
pub use telling::{told, told_from};
