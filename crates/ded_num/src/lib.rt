//! Exact arithmetic on whole numbers and fractions, the ground that the rows of the database stand on.
//!
//! Working numbers are `i128` with magnitudes of at most 127 binary digits, so that each has its negative beside it.
//! The crate stands on std alone and doesn't allocate. Its contracts say each answer as a value of the unbounded whole
//! numbers: [`gcd`] is the greatest common divisor, [`bits`] the count of binary digits, [`cmp_frac`] the exact order
//! of two fractions, [`quotient`] the quotient rounded toward zero, and [`checked_mix`] the sum of two products, or
//! `None` exactly where a product or the sum has more than 127 digits. No call wraps, saturates or rounds otherwise.
//!
//! For proofs above: `specs/` defines what these words mean, `proofs/Ring.antt` proves identities of whole numbers.
#![tactic(auto)]

mod divisor;
mod fraction;
mod length;
mod product;

pub use divisor::{gcd, quotient};
pub use fraction::cmp_frac;
pub use length::bits;
pub use product::{checked_mix, short_product, short_sum};
