//! The lines of a catalogue are statements that say the same.
//!
//! `specs/` says which formula is read back of a view's line, and which comparisons of a tuple's. [`laws`] say that
//! each line, as `ded_dump` writes it, is one piece of a script, and is read in language 2 as the command that makes
//! what was written: by its lexemes, by the grammar, and with no refusal that bytes alone decide; and which words and
//! shapes the formulas have that were read. They also say that the formulas read back are accepted where those written
//! were, hold of the same values, and have the same measures, and that the comparisons are those of the same tuple.
//!
//! It stands on `ded_dump`, which says what the lines are, on what `ded_resolve` and `ded_sorts` say of goals and
//! scopes, on what `ded_algebra` says of equal values, and on the lexer's and the grammar's laws.
#![tactic(auto)]

pub mod laws;
