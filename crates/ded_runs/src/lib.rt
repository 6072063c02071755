//! Laws of whole runs: a dump makes the same catalogue again, and what `disjoint` prints, `verify` accepts.
//!
//! [`laws`] say that the lines of a catalogue, run as a script in a new session of the same limit, leave the catalogue
//! that `specs/` calls remade: the same entries in order, with the tuples numbered from 1 and the formulas as they are
//! read back; that its names mean the same and have the same measures; that a question of order rows is never refused
//! as too wide in a run; and that what is printed of an answer, read back, is the answer, as its numbers are short.
//! They say which lines a reply of several lines has, and that the statement made of them (`verify`, the names of the
//! two relations, and the lines as they were printed, with commas between) is read as the command with the entries of
//! the reply, and is answered `yes` over the same catalogue, unless it is too long or memory is wanted. And one says
//! what `yes` and `no` mean, so that it can be read without the rules for other replies.
//!
//! It stands on `ded_reread` for how lines, words and numbers are read and what is read back, on `ded_readback` for
//! what spells an answer, on `ded_width` for how long its numbers are, on `ded_print` for how certificates are printed,
//! on `ded_cert` for what they show, and on `ded_session` for what statements do.
#![tactic(auto)]

pub mod laws;
