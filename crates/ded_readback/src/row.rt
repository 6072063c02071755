//! Rows.
ghost use Rattle.std.specs.Prelude.{◌≡◌, ◌<◌, ◌^◌, [], Some, None, IfSome, IfNone, IfOk, IfErr};
ghost use Rattle.ded_num.specs.Length.{IsShort};
ghost use Rattle.ded_model.specs.Coefs.{AreCoefs};
ghost use Rattle.ded_model.specs.Normal.{IsNormalRow};
ghost use Rattle.ded_model.specs.declared.fault.ParseFault.TheVariants.{NotRead};
ghost use Rattle.ded_readback.specs.Reading.{comparison_at, is_short, number_of, with_term, coefs_from, row_of, row_at};

use crate::bytes::{behind, integer};
use crate::terms::{Summand, terms};
use ded_model::fault::ParseFault;
use ded_model::name::Column;
use ded_model::row::{Coefs, Row, RowOp};
use ded_model::slot::Sort;
use ded_row::normal;
use std::alloc::Global;

/// How a sum is compared, whether all signs are turned, and what stands behind that; none where the bytes begin with no
/// sign of a comparison.
fn comparison(bytes: &[u8]) -> Option<((RowOp, bool), &[u8])>
    ensures some { IfSome result (λ x. comparison_at bytes.now ≡ Some (x.0, x.1.now)) }
    ensures none { IfNone result (comparison_at bytes.now ≡ None) }
{
    if let Some(rest) = behind(bytes, b" = ") {
        return Some(((RowOp::Zero, false), rest));
    }
    if let Some(rest) = behind(bytes, b" <= ") {
        return Some(((RowOp::AtMost, false), rest));
    }
    if let Some(rest) = behind(bytes, b" >= ") {
        return Some(((RowOp::AtMost, true), rest));
    }
    if let Some(rest) = behind(bytes, b" < ") {
        return Some(((RowOp::Below, false), rest));
    }
    let rest = behind(bytes, b" > ")?;
    Some(((RowOp::Below, true), rest))
}

/// Whether the magnitude has at most 127 binary digits.
fn is_short(magnitude: u128) -> bool
    ensures { result ≡ is_short magnitude }
{
    magnitude < 1 << 127
}

/// The number of a magnitude, whose sign may be turned twice.
fn number_of(turned: bool, minus: bool, magnitude: u128) -> i128
    requires { magnitude < 2 ^ 127 }
    ensures value { result ≡ number_of turned minus magnitude }
    ensures short { IsShort result }
{
    let number = magnitude as i128;
    if turned == minus { number } else { -number }
}

/// Sets the coefficient of the term's slot, with all signs turned or not. `NotRead` where the slot isn't rational or
/// the magnitude has more than 127 binary digits.
fn put_term(coefs: &mut Coefs, turned: bool, term: Summand) -> Result<(), ParseFault>
    ensures read { IfOk result (λ _. with_term turned coefs.old term ≡ Some coefs.new) }
    ensures unread { IfErr result (λ e. e ≡ NotRead → with_term turned coefs.old term ≡ None) }
{
    if term.slot.sort != Sort::Rat || !is_short(term.magnitude) {
        return Err(ParseFault::NotRead);
    }
    coefs.put(term.slot, number_of(turned, term.minus, term.magnitude))?;
    Ok(())
}

/// The coefficients of the terms, with all signs turned or not.
fn coefs_of(alloc: Global, turned: bool, terms: &[Summand]) -> Result<Coefs, ParseFault>
    ensures read { IfOk result (λ cs. coefs_from turned [] terms.now ≡ Some cs) }
    ensures unread { IfErr result (λ e. e ≡ NotRead → coefs_from turned [] terms.now ≡ None) }
{
    let mut coefs = Coefs::new(alloc);
    for term in terms {
        put_term(&mut coefs, turned, *term)?;
    }
    Ok(coefs)
}

/// The row in normal form of these terms, compared with a number on the other side, with all signs turned or not.
fn row_of(
    alloc: Global,
    terms: &[Summand],
    op: RowOp,
    turned: bool,
    minus: bool,
    magnitude: u128,
) -> Result<Row, ParseFault>
    ensures read { IfOk result (λ r. row_of op turned minus magnitude terms.now ≡ Some r) }
    ensures unread { IfErr result (λ e. e ≡ NotRead → row_of op turned minus magnitude terms.now ≡ None) }
    ensures normal { IfOk result (λ r. IsNormalRow r) }
{
    let coefs = coefs_of(alloc, turned, terms)?;
    if !is_short(magnitude) {
        return Err(ParseFault::NotRead);
    }
    Ok(normal(Row {
        coefs,
        constant: number_of(!turned, minus, magnitude),
        op,
    }))
}

/// The row that begins with this term, and what stands behind it.
///
/// # Errors
/// `NotRead` only where the term and the bytes behind it begin with no row, otherwise out of memory.
pub(crate) fn row<'a>(
    alloc: Global,
    columns: &[Column],
    first: Summand,
    bytes: &'a [u8],
) -> Result<(Row, &'a [u8]), ParseFault>
    ensures read { IfOk result (λ x. row_at columns.now first bytes.now ≡ Some (x.0, x.1.now)) }
    ensures unread { IfErr result (λ e. e ≡ NotRead → row_at columns.now first bytes.now ≡ None) }
    ensures normal { IfOk result (λ x. IsNormalRow x.0) }
    ensures coefs { IfOk result (λ x. AreCoefs x.0.coefs) }
{
    let (terms, rest) = terms(alloc, columns, first, bytes)?;
    let Some(((op, turned), rest)) = comparison(rest) else {
        return Err(ParseFault::NotRead);
    };
    let (minus, magnitude, rest) = integer(rest);
    let row = row_of(alloc, terms.as_slice(), op, turned, minus, magnitude)?;
    let _ = row.coefs.list();
    Ok((row, rest))
}
