//! The theory of dense order over the rationals: [`Order`], whose atoms are order rows in normal form.
//!
//! An order row compares one slot with a number, or two slots with each other. What is left of such rows when a slot is
//! eliminated, and what negates one of them, are order rows again, and no number gets longer on the way. So every
//! conjunction of order rows is decided, whatever its numbers: no elimination is refused, no verdict is open, and all
//! bounds are exact.
//!
//! It stands on `ded_elimination` and `ded_linear`, which work on any rows with a way of combining two of them:
//! [`Ordered`] is that of order rows. It compares two bounds exactly where two rows of one slot meet; every other
//! combination multiplies by 1, -1 and 0 alone.
#![tactic(auto)]

mod atom;
mod equality;
mod lists;
mod mixing;
mod theory;

pub use atom::{OrderAtom, is_order};
pub use mixing::Ordered;
pub use theory::Order;
