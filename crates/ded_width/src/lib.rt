//! Laws on widths: why no number gets too long.
//!
//! A formula's width is the greatest length b of the numbers that it reaches, and its rank q, the rational quantifiers
//! and counting arguments that stand one in another. Where (b + 1) * 2 ^ q is at most 128, no number that eliminating
//! its quantifiers can make is too long: what is narrow is tight.
//!
//! A formula is orderly where each row that it reaches has one slot, or compares two, or has none: what compares
//! numbers of slots with each other and with constants alone. Eliminating a slot then copies numbers and makes none, so
//! that rows of at most 63 digits never clash, at any rank.
//!
//! An elimination combines two lines only where they don't clash. So whatever the rank, no line of a question has a
//! number of more than 127 digits, but where a row that it reaches has one that is as long. The crate has laws alone,
//! on the definitions of `ded_model`.
#![tactic(auto)]

pub mod laws;
