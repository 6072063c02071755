//! From the bytes of a statement to its command.
//!
//! [`read_command`] answers the command that the bytes spell, or the least refusal that bytes alone decide;
//! [`read_tokens`] that of tokens that were cut before. The grammar of commands stands in `specs/` over the symbols of
//! `ded_terminals` (`Certificates`, `Commands`), with what each part means; `Spelling` says when bytes spell a command
//! in a language, and when a refusal applies.
//!
//! What is too long is refused only where no refusal of less number applies: comparisons that were marked for it, and
//! rows whose normal form has a number above 2^63 - 1 in magnitude, are found in the command that is read.
//!
//! Answers are exact both ways, so what is spelled is read, and what is read is spelled. Reading goes from left to
//! right, by loops, up to the terminals of a formula; `ded_grammar` makes its tree of them. The crate stands on
//! `ded_terminals` for these and for comparisons, on `ded_lex` for tokens, on `ded_num` for divisors and on `ded_model`
//! for commands.
#![tactic(auto)]

mod arguments;
mod certificate;
mod command;
mod draft;
mod header;
mod laws;
mod long;
mod statement;

pub use command::{read_command, read_tokens};
pub use header::is_header;
pub use laws::{one_command, opening_language, second_language, some_command, spelled_sums};
