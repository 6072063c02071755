//! Conjunctions without superfluous atoms, over any theory.
//!
//! [`reduce`] removes each atom that the others imply: one whose negation can't hold together with them, as
//! [`some_point_outside`] tells. It stands on the theory's `refute` for that, and on `ded_genrel` for copies.
//!
//! What is left is a part of the conjunction in the same order, so a tuple that is normal stays so, and it holds at the
//! same points. Where it isn't wide, or the theory decides every conjunction, it holds somewhere, and without any one
//! of its atoms it would hold at further points. Where the conjunction is found to hold nowhere, nothing is left.
#![tactic(auto)]

mod reduction;
mod superfluous;

pub use reduction::{Reduced, reduce};
pub use superfluous::some_point_outside;
