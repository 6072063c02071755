//! The lines of a catalogue: a script that makes it again.
//!
//! The first line says that the script is of version 2. The entries follow in order of definition: a relation is one
//! line that defines it and one insert for each of its tuples, in the order of their numbers, and a view is one line
//! with its formula. A comparison of numbers is written by its normal row, and a comparison of texts as it was.
//! `specs/` says what each line is. [`Text`] is a text in memory that grows as it is written.
//!
//! It stands on `ded_catalog` for the catalogue, on `ded_packed` for the tuples in it, on `ded_model` for what these
//! mean, and on `ded_print` for the texts of rows, tuples, quoted texts and fractions, which are those of replies.
//! Running out of memory is the only reason to give no lines.
#![tactic(auto)]

mod comparison;
mod entries;
mod formula;
mod goals;
mod heading;
mod naming;
mod operand;
mod script;
mod text;

pub use script::lines;
pub use text::Text;
