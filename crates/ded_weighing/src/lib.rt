//! Checks of what shows of rows that they hold somewhere, or nowhere: a point, or numbers, one for each row.
//!
//! Where the rows times these numbers come to a row that has no slot and is false, they hold nowhere together
//! ([`refutes`]). Where each row holds at the point, a [`Witness`], they hold somewhere ([`meets`]). Both are checked
//! by multiplications and sums alone, however they were found; whoever has the numbers already asks nothing but whether
//! they refute the rows ([`are_refuted`]). At the border of rows by `<`, and along a direction, it is [`leans`] that
//! checks.
//!
//! It stands on `ded_model` for rows and their meaning, and knows of no search. The laws of what is shown are in
//! [`laws`].
#![tactic(auto)]

pub mod laws;
mod meeting;
mod slots;
mod weighing;
mod witness;

pub use meeting::{leans, meets, number_of, row_at};
pub use slots::slots_of;
pub use weighing::{are_refuted, refutes};
pub use witness::Witness;
