//! The sides of comparisons and the operands of members, as they are read before it is known what their sums are over.
ghost use Rattle.std.specs.Prelude.{◌≡◌, ◌≤◌, ◌<◌, ◌+◌, length, Some, None, IfSome, IfNone, IfOk, IfErr};
ghost use Rattle.ded_model.specs.declared.fault.ParseFault.TheVariants.{NotRead};
ghost use Rattle.ded_lex.specs.Tokens.{quoted_value};
ghost use Rattle.ded_terminals.specs.Items.{left};
ghost use Rattle.ded_terminals.specs.Literals.{capped};
ghost use Rattle.ded_terminals.specs.OperandReading.{behind_scalar, product_at, sign_at, all_parts, summed_at};
ghost use Rattle.ded_terminals.specs.OperandReading.{number_at, name_at, quoted_at, minus_at, behind_name};
ghost use Rattle.ded_terminals.specs.OperandReading.{side_by_minus, side_at};
ghost use Rattle.ded_terminals.specs.Views.{seen_literal, seen_factor, seen_parts, seen_side, AddsProduct, ArePositive};
ghost use Rattle.ded_terminals.specs.Views.{IsFit};

use crate::item::{Item, Rest, text};
use crate::scalar::{Literal, scalar};
use ded_model::fault::ParseFault;
use std::alloc::Global;

/// A literal and the name that it multiplies, if any.
#[derive(Clone, Copy, Debug)]
pub struct Factor<'a> {
    pub literal: Literal,
    pub name: Option<&'a [u8]>,
}

/// A factor that is added, or taken away.
#[derive(Clone, Copy, Debug)]
pub struct SignedFactor<'a> {
    pub minus: bool,
    pub factor: Factor<'a>,
}

/// A text with its quotes, a name alone, or the parts of a sum.
#[derive(Drop)]
pub enum ParsedSide<'a> {
    Quoted(&'a [u8]),
    Name(&'a [u8]),
    Sum(Vec<SignedFactor<'a>>),
}

/// The name with which the rest begins, and what stands behind it; none where the rest begins with no name.
pub fn name(rest: Rest<'_>) -> Option<(&[u8], Rest<'_>)>
    ensures some { IfSome result (λ x. name_at (left rest.entry) ≡ Some (x.0.now, left x.1)) }
    ensures none { IfNone result (name_at (left rest.entry) ≡ None) }
    ensures low { IfSome result (λ x. length (left x.1) < length (left rest.entry)) }
{
    match rest.items {
        [Item::Name(name), items @ ..] => Some((text(rest.bytes, *name), Rest { items, ..rest })),
        _ => None,
    }
}

/// The digits of the number with which the rest begins, and what stands behind them; none where the rest begins with no
/// number.
pub fn number(rest: Rest<'_>) -> Option<(&[u8], Rest<'_>)>
    ensures some { IfSome result (λ x. number_at (left rest.entry) ≡ Some (x.0.now, left x.1)) }
    ensures none { IfNone result (number_at (left rest.entry) ≡ None) }
    ensures low { IfSome result (λ x. length (left x.1) < length (left rest.entry)) }
{
    match rest.items {
        [Item::Number(digits), items @ ..] => {
            Some((text(rest.bytes, *digits), Rest { items, ..rest }))
        }
        _ => None,
    }
}

/// The text with its quotes with which the rest begins, and what stands behind it; none where the rest begins with no
/// such text.
fn quoted(rest: Rest<'_>) -> Option<(&[u8], Rest<'_>)>
    ensures some { IfSome result (λ x. quoted_at (left rest.entry) ≡ Some (quoted_value x.0.now, left x.1)) }
    ensures none { IfNone result (quoted_at (left rest.entry) ≡ None) }
    ensures low { IfSome result (λ x. length (left x.1) < length (left rest.entry)) }
{
    match rest.items {
        [Item::Quoted(quoted), items @ ..] => {
            Some((text(rest.bytes, *quoted), Rest { items, ..rest }))
        }
        _ => None,
    }
}

/// What stands behind a minus sign; none where the rest begins with no such sign.
fn minus(rest: Rest<'_>) -> Option<Rest<'_>>
    ensures some { IfSome result (λ x. minus_at (left rest.entry) ≡ Some (left x)) }
    ensures none { IfNone result (minus_at (left rest.entry) ≡ None) }
    ensures low { IfSome result (λ x. length (left x) < length (left rest.entry)) }
{
    match rest.items {
        [Item::Minus, items @ ..] => Some(Rest { items, ..rest }),
        _ => None,
    }
}

/// The sign of a further product, true where the product is taken away, and what stands behind the sign; none where the
/// rest begins with no such sign.
fn sign(rest: Rest<'_>) -> Option<(bool, Rest<'_>)>
    ensures some { IfSome result (λ x. sign_at (left rest.entry) ≡ Some (x.0, left x.1)) }
    ensures none { IfNone result (sign_at (left rest.entry) ≡ None) }
    ensures low { IfSome result (λ x. length (left x.1) < length (left rest.entry)) }
{
    match rest.items {
        [Item::Plus, items @ ..] => Some((false, Rest { items, ..rest })),
        [Item::Minus, items @ ..] => Some((true, Rest { items, ..rest })),
        _ => None,
    }
}

/// The factor of a literal that stands before, with the name that it multiplies where `*` and a name follow, and what
/// stands behind it. None where `*` follows without a name.
fn behind_scalar(literal: Literal, rest: Rest<'_>) -> Option<(Factor<'_>, Rest<'_>)>
    ensures some { IfSome result (λ x. behind_scalar (seen_literal literal) (left rest.entry)
        ≡ Some (seen_factor x.0, left x.1)) }
    ensures none { IfNone result (behind_scalar (seen_literal literal) (left rest.entry) ≡ None) }
    ensures low { IfSome result (λ x. length (left x.1) ≤ length (left rest.entry)) }
    ensures literal { IfSome result (λ x. x.0.literal ≡ literal) }
{
    match rest.items {
        [Item::Times, Item::Name(name), items @ ..] => {
            let name = Some(text(rest.bytes, *name));
            Some((Factor { literal, name }, Rest { items, ..rest }))
        }
        [Item::Times, ..] => None,
        _ => Some((
            Factor {
                literal,
                name: None,
            },
            rest,
        )),
    }
}

/// The product with which the rest begins, and what stands behind it; none where the rest begins with no product.
fn product(rest: Rest<'_>) -> Option<(Factor<'_>, Rest<'_>)>
    ensures some { IfSome result (λ x. product_at capped (left rest.entry) ≡ Some (seen_factor x.0, left x.1)) }
    ensures none { IfNone result (product_at capped (left rest.entry) ≡ None) }
    ensures low { IfSome result (λ x. length (left x.1) < length (left rest.entry)) }
    ensures positive { IfSome result (λ x. 0 < x.0.literal.denominator) }
{
    if let Some((literal, rest)) = scalar(rest) {
        return behind_scalar(literal, rest);
    }
    let (name, rest) = name(rest)?;
    let literal = Literal {
        numerator: 1,
        denominator: 1,
    };
    let factor = Factor {
        literal,
        name: Some(name),
    };
    Some((factor, rest))
}

/// Sets the product with which the rest begins at the end of the parts, and gives what stands behind it.
fn next<'a>(
    parts: &mut Vec<SignedFactor<'a>>,
    minus: bool,
    rest: Rest<'a>,
) -> Result<Rest<'a>, ParseFault>
    ensures read { IfOk result (λ x. AddsProduct minus (left rest.entry) (seen_parts parts.old.items)
        (seen_parts parts.new.items) (left x)) }
    ensures unread { IfErr result (λ e. e ≡ NotRead → product_at capped (left rest.entry) ≡ None) }
    ensures low { IfOk result (λ x. length (left x) < length (left rest.entry)) }
    ensures count { IfOk result (λ _. length parts.new.items ≡ length parts.old.items + 1) }
    ensures positive { IfOk result (λ _. ArePositive parts.old.items → ArePositive parts.new.items) }
{
    let Some((factor, rest)) = product(rest) else {
        return Err(ParseFault::NotRead);
    };
    parts.push(SignedFactor { minus, factor })?;
    Ok(rest)
}

/// Sets all further products at the end of the parts, and gives what stands behind them.
fn more<'a>(parts: &mut Vec<SignedFactor<'a>>, items: Rest<'a>) -> Result<Rest<'a>, ParseFault>
    ensures read { IfOk result (λ x. all_parts capped (seen_parts parts.old.items) (left items.entry)
        ≡ Some (seen_parts parts.new.items, left x)) }
    ensures unread { IfErr result (λ e. e ≡ NotRead
        → all_parts capped (seen_parts parts.old.items) (left items.entry) ≡ None) }
    ensures low { IfOk result (λ x. length (left x) ≤ length (left items.entry)) }
    ensures few { IfOk result (λ x. length parts.new.items + length parts.new.items + length (left x)
        ≤ length parts.old.items + length parts.old.items + length (left items.entry)) }
    ensures positive { IfOk result (λ _. ArePositive parts.old.items → ArePositive parts.new.items) }
{
    let mut rest = items;
    while let Some((minus, after)) = sign(rest) {
        rest = next(parts, minus, after)?;
    }
    Ok(rest)
}

/// The sum with which the rest begins, whose first product is taken away or not, and what stands behind it.
fn summed(
    alloc: Global,
    minus: bool,
    rest: Rest<'_>,
) -> Result<(ParsedSide<'_>, Rest<'_>), ParseFault>
    ensures read { IfOk result (λ x. summed_at capped minus (left rest.entry) ≡ Some (seen_side x.0, left x.1)) }
    ensures unread { IfErr result (λ e. e ≡ NotRead → summed_at capped minus (left rest.entry) ≡ None) }
    ensures low { IfOk result (λ x. length (left x.1) < length (left rest.entry)) }
    ensures fit { IfOk result (λ x. IsFit x.0 (length (left rest.entry))) }
{
    let mut parts = Vec::new(alloc);
    let rest = next(&mut parts, minus, rest)?;
    let rest = more(&mut parts, rest)?;
    Ok((ParsedSide::Sum(parts), rest))
}

/// The name alone, with which the items begin, where no sign follows it, and otherwise the sum that it begins; then
/// what stands behind that.
fn behind_name<'a>(
    alloc: Global,
    items: Rest<'a>,
    name: &'a [u8],
    rest: Rest<'a>,
) -> Result<(ParsedSide<'a>, Rest<'a>), ParseFault>
    requires low { length (left rest) < length (left items) }
    ensures read { IfOk result (λ x. behind_name capped (left items.entry) (
      name.now,
      left rest.entry,
    ) (sign_at (left rest.entry)) ≡ Some (seen_side x.0, left x.1)) }
    ensures unread { IfErr result (λ e. e ≡ NotRead
        → behind_name capped (left items.entry) (name.now, left rest.entry) (sign_at (left rest.entry)) ≡ None) }
    ensures low { IfOk result (λ x. length (left x.1) < length (left items.entry)) }
    ensures fit { IfOk result (λ x. IsFit x.0 (length (left items.entry))) }
{
    match sign(rest) {
        Some(_) => summed(alloc, false, items),
        None => Ok((ParsedSide::Name(name), rest)),
    }
}

/// The side with which the rest begins, which is no quoted text, and what stands behind it.
fn unquoted(alloc: Global, rest: Rest<'_>) -> Result<(ParsedSide<'_>, Rest<'_>), ParseFault>
    ensures read { IfOk result (λ x. side_by_minus capped (left rest.entry) (minus_at (left rest.entry))
        ≡ Some (seen_side x.0, left x.1)) }
    ensures unread { IfErr result (λ e. e ≡ NotRead
        → side_by_minus capped (left rest.entry) (minus_at (left rest.entry)) ≡ None) }
    ensures low { IfOk result (λ x. length (left x.1) < length (left rest.entry)) }
    ensures fit { IfOk result (λ x. IsFit x.0 (length (left rest.entry))) }
{
    if let Some(behind) = minus(rest) {
        return summed(alloc, true, behind);
    }
    match name(rest) {
        Some((name, behind)) => behind_name(alloc, rest, name, behind),
        None => summed(alloc, false, rest),
    }
}

/// The side with which the rest begins, and what stands behind it. It has no more parts than half of the items, rounded
/// up.
///
/// # Errors
/// `NotRead` only where the rest begins with no side, otherwise out of memory.
pub(crate) fn read_side(
    alloc: Global,
    rest: Rest<'_>,
) -> Result<(ParsedSide<'_>, Rest<'_>), ParseFault>
    ensures read { IfOk result (λ x. side_at capped (left rest.entry) ≡ Some (seen_side x.0, left x.1)) }
    ensures unread { IfErr result (λ e. e ≡ NotRead → side_at capped (left rest.entry) ≡ None) }
    ensures low { IfOk result (λ x. length (left x.1) < length (left rest.entry)) }
    ensures fit { IfOk result (λ x. IsFit x.0 (length (left rest.entry))) }
{
    match quoted(rest) {
        Some((text, behind)) => Ok((ParsedSide::Quoted(text), behind)),
        None => unquoted(alloc, rest),
    }
}
