//! That the rules can be met: which statements may get a reply other than that memory is wanted.
//!
//! A contract that no reply meets would be met only where memory is wanted, and nothing would show it. So [`laws`] say
//! of each statement over each well formed catalogue that the rules give it a reply: a refusal that has a cause, or
//! what its command is answered.
//!
//! It stands on `ded_session` for what statements may be answered, on `ded_syntax` for how commands are read, and on
//! `ded_laws` for formulas that are decided.
#![tactic(auto)]

pub mod laws;
