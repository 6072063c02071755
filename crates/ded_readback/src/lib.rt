//! Printed answers, read back.
//!
//! [`read_answer`] gives the one answer over a heading that bytes spell, and `NotRead` exactly where they spell none.
//! `specs/Spelling.antt` says what they spell: tuples in normal form over the heading, with numbers of at most 127
//! digits, whose text the bytes are. The text is that of `ded_print`, so what prints an answer says what is read, and
//! there is no second grammar. The heading must have distinct words for names; a word may also be one that the language
//! reserves.
//!
//! The bytes are read loosely, by steps that undo the printing of each part (`specs/Reading.antt`). Then the tuples
//! that were read have to be over the heading, and to be printed as these bytes. So what is read is spelled without a
//! proof about the steps, and for the rest it is enough that they undo the printing of what is spelled. This gives
//! [`laws`] too: one list of tuples belongs to a spelling, and the text of an answer spells its tuples.
//!
//! It stands on `ded_print` for the texts, on `ded_tuple` and `ded_row` for normal tuples and rows, on `ded_io` for the
//! sink that a text is printed to, and on `ded_lex` for what a word and a digit are. That there is no memory is the
//! only other reason to give no answer.
#![tactic(auto)]

mod answer;
mod bytes;
pub mod laws;
mod over;
mod printed;
mod row;
mod slot;
mod terms;
mod theme;
mod tuple;

pub use answer::read_answer;
