//! Whether two tuples have a common point, or else what shows that they have none.
ghost use Rattle.std.specs.Prelude.{◌++◌, IfOk, IsErrOf};
ghost use Rattle.ded_model.specs.declared.memory.Refused.TheVariants.{Wide};
ghost use Rattle.ded_model.specs.Cell.{conj_holds, HoldsSomewhere};
ghost use Rattle.ded_model.specs.Row.{theme_holds};
ghost use Rattle.ded_theory.specs.Both.{seconds};
ghost use Rattle.ded_cert.specs.Certified.{IsCertified, IsWidePair};

use crate::checking::{rows_of, texts_refute};
use crate::choosing::{copied, short_refutation};
use crate::seeking::{Sought, seek};
use ded_linear::Linear;
use ded_model::certificate::Proof;
use ded_model::memory::Refused;
use ded_model::tuple::Tuple;
use ded_theory::{Theory, Verdict};
use std::alloc::Global;

/// What is answered of two tuples.
#[derive(Drop)]
pub enum Outcome {
    /// They have a common point.
    Common,
    /// They have none, as the certificate shows.
    Apart(Proof),
}

/// Whether the tuples have a common point, or else a certificate that they have none, of which the magnitudes of the
/// numbers sum to at most 2^63 - 1.
///
/// # Errors
/// `Wide` only where, with b the greatest length of their numbers and at least 1, and k the count of rational slots
/// that they mention, (b + 1) * 2^(k + 1) is above 128; otherwise out of memory, or of slots, of which there are 2^32.
pub fn certify(alloc: Global, first: &Tuple, second: &Tuple) -> Result<Outcome, Refused>
    ensures is { IfOk result (λ o. IsCertified first.now second.now o) }
    ensures wide { IsErrOf result Wide → IsWidePair first.now second.now }
{
    if texts_refute(alloc, first, second)? {
        return Ok(Outcome::Apart(Proof::Text));
    }
    match seek(alloc, &rows_of(alloc, first, second)?)? {
        Sought::Somewhere => Ok(Outcome::Common),
        Sought::Nowhere(numbers) => Ok(Outcome::Apart(Proof::Multipliers(numbers))),
        Sought::Nothing => by_eliminations(alloc, first, second),
    }
}

/// The same of tuples of which the texts fit, by eliminations.
fn by_eliminations(alloc: Global, first: &Tuple, second: &Tuple) -> Result<Outcome, Refused>
    requires { HoldsSomewhere (conj_holds theme_holds (seconds (first.now ++ second.now))) }
    ensures is { IfOk result (λ o. IsCertified first.now second.now o) }
    ensures wide { IsErrOf result Wide → IsWidePair first.now second.now }
{
    let rows = rows_of(alloc, first, second)?;
    match Linear::refute(alloc, &copied(alloc, &rows)?)? {
        Verdict::Inhabited => Ok(Outcome::Common),
        Verdict::Unknown => Err(Refused::Wide),
        Verdict::Empty => Ok(Outcome::Apart(Proof::Multipliers(short_refutation(alloc, &rows)?))),
    }
}
