//! The grammar of formulas over terminals: signs, quantifiers with their variables, and atoms.
//!
//! A formula is spelled by a tree (`specs/Trees.antt`), which says what it means and how deep it nests. [`is_formula`]
//! tells from left to right whether terminals spell any formula, by a count of what is open, whatever the nesting;
//! [`formula_of`] builds the formula where it nests at most 64 deep, which is the one place that calls itself. Both are
//! exact, and there is one formula for terminals at most. Chains of `and` and `or` are one node, `implies` goes to the
//! right.
//!
//! The crate stands on `ded_model` for formulas. What a terminal is spelled by is for the crates above it.
#![tactic(auto)]

mod build;
mod formula;
mod laws;
mod scan;
mod terminal;

pub use formula::formula_of;
pub use laws::{atoms_stand_in_terminals, one_formula};
pub use scan::is_formula;
pub use terminal::{Quantifier, Terminal};
