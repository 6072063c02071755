//! The theory of texts: equalities and disequalities between text slots and quoted texts, over all finite byte strings.
//!
//! [`Theme`] implements [`ded_theory::Theory`] whole. A slot is eliminated by the word that an equality gives it, or
//! else by dropping its disequalities, and a conjunction is decided by the classes that its equalities make. It stands
//! on `ded_model` for text atoms and points, and on `ded_theory` for what a theory promises.
//!
//! No call gives up: only an allocation that fails makes a call fail.
#![tactic(auto)]

mod classes;
mod elimination;
mod implying;
mod renaming;
mod substitution;
mod theory;
mod words;

pub use theory::Theme;
