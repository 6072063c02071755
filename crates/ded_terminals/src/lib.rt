//! From the tokens of a statement to the terminals of a formula.
//!
//! [`item::items_of`] gives what a reader sees of tokens: reserved words, names, literals and signs. From these, left
//! to right and by loops, [`atom::comparison`] and [`atom::column`] read a comparison and a column, and
//! [`terminals::terminals`] all terminals of a formula, of which `ded_grammar` makes its tree. The grammar stands in
//! `specs/` over symbols (`Symbols`, `Literals`, `Operands`, `Atoms`), with what each part means. The languages differ
//! in the symbols that lexemes are: what a language doesn't have is a symbol that stands in no command.
//!
//! The sums of a comparison are over the common denominator of its literals. Where that or a literal over it is too
//! long, the reader marks the comparison by sums over 2^63, and goes on, since a refusal of less number may apply.
//!
//! Answers are exact both ways, so what is spelled is read, and what is read is spelled. The crate stands on `ded_lex`
//! for tokens, on `ded_grammar` for terminals, on `ded_num` for divisors and on `ded_model` for formulas.
#![tactic(auto)]

pub mod atom;
mod decimal;
pub mod item;
mod laws;
pub mod operand;
mod same;
mod scalar;
pub mod side;
mod sum;
pub mod terminals;
mod word;

pub use laws::member_names;
