//! The terms of a row, one after another.
ghost use Rattle.std.specs.Prelude.{◌≡◌, [], ◌∷◌, length, Some, None, IfSome, IfNone, IfOk};
ghost use Rattle.ded_readback.specs.Reading.{multiple_at, term_at, sign_at, later_at, terms_from};

use crate::bytes::{behind, digits};
use crate::slot::slot;
use ded_model::memory::NoMemory;
use ded_model::name::Column;
use ded_model::slot::Slot;
use std::alloc::Global;

/// A slot, whether it is taken away, and how many times.
#[derive(Clone, Copy, Debug)]
pub(crate) struct Summand {
    pub slot: Slot,
    pub minus: bool,
    pub magnitude: u128,
}

/// A column, which a number and `*` may stand before, and what stands behind it; none where the bytes begin with no
/// such term.
pub(crate) fn term<'a>(
    columns: &[Column],
    minus: bool,
    bytes: &'a [u8],
) -> Option<(Summand, &'a [u8])>
    ensures some { IfSome result (λ x. term_at columns.now minus bytes.now ≡ Some (x.0, x.1.now)) }
    ensures none { IfNone result (term_at columns.now minus bytes.now ≡ None) }
{
    let (magnitude, rest) = digits(bytes);
    match behind(rest, b"*") {
        Some(rest) => multiple(columns, minus, magnitude, rest),
        None => multiple(columns, minus, 1, bytes),
    }
}

/// So many times the column that is named in front, and what stands behind the name; none where no column is.
fn multiple<'a>(
    columns: &[Column],
    minus: bool,
    magnitude: u128,
    bytes: &'a [u8],
) -> Option<(Summand, &'a [u8])>
    ensures some { IfSome result (λ x. multiple_at columns.now minus magnitude bytes.now ≡ Some (x.0, x.1.now)) }
    ensures none { IfNone result (multiple_at columns.now minus magnitude bytes.now ≡ None) }
{
    let (slot, rest) = slot(columns, bytes)?;
    let term = Summand {
        slot,
        minus,
        magnitude,
    };
    Some((term, rest))
}

/// The sign of one more term, true where the term is taken away, and what stands behind it; none where the bytes begin
/// with no such sign.
fn sign(bytes: &[u8]) -> Option<(bool, &[u8])>
    ensures some { IfSome result (λ x. sign_at bytes.now ≡ Some (x.0, x.1.now)) }
    ensures none { IfNone result (sign_at bytes.now ≡ None) }
{
    if let Some(rest) = behind(bytes, b" + ") {
        return Some((false, rest));
    }
    let rest = behind(bytes, b" - ")?;
    Some((true, rest))
}

/// One more term with its sign, and what stands behind it; none where the bytes begin with no such term.
fn later<'a>(columns: &[Column], bytes: &'a [u8]) -> Option<(Summand, &'a [u8])>
    ensures some { IfSome result (λ x. later_at columns.now bytes.now ≡ Some (x.0, x.1.now)) }
    ensures none { IfNone result (later_at columns.now bytes.now ≡ None) }
{
    let (minus, rest) = sign(bytes)?;
    term(columns, minus, rest)
}

/// The terms that begin with this one, and what stands behind them.
///
/// # Errors
/// Out of memory.
pub(crate) fn terms<'a>(
    alloc: Global,
    columns: &[Column],
    first: Summand,
    bytes: &'a [u8],
) -> Result<(Vec<Summand>, &'a [u8]), NoMemory>
    ensures { IfOk result (λ x. (x.0.items, x.1.now)
        ≡ terms_from columns.now (length bytes.now) (first ∷ []) bytes.now) }
{
    let mut terms = Vec::new(alloc);
    terms.push(first)?;
    let mut rest = bytes;
    // Each term has a byte at least.
    for _ in 0..bytes.len() {
        let Some((next, behind)) = later(columns, rest) else {
            return Ok((terms, rest));
        };
        terms.push(next)?;
        rest = behind;
    }
    Ok((terms, rest))
}
