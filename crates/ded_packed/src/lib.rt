//! Generalized tuples in few bytes.
//!
//! A [`Packed`] tuple keeps each number in groups of 7 binary digits, as many as it takes, and the kind of each atom in
//! one byte. The sorts of slots are left out, as normal form tells them. The bytes are a stack: what is put last is
//! read first. So whatever is put is read from the top, and under it the stack is what it was before.
//!
//! [`Lent`] is a reference to a tuple as it is or to a packed one, for lists of tuples that stand in different places.
//!
//! It stands on `ded_num` and `ded_model`. Running out of memory is the only reason to give no answer.
#![tactic(auto)]

mod kind;
mod lent;
mod packed;
mod reader;
mod stack;

pub use lent::{Lent, lend};
pub use packed::Packed;
