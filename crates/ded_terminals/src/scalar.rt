//! Literals: numbers, quotients and decimals, in lowest terms.
ghost use Rattle.std.specs.Prelude.{◌≡◌, ◌<◌, ◌/◌, length, Some, None, IfSome, IfNone};
ghost use Rattle.ded_terminals.specs.Items.{left};
ghost use Rattle.ded_terminals.specs.Literals.{capped, lowest};
ghost use Rattle.ded_terminals.specs.OperandReading.{quotient_at, scalar_at};
ghost use Rattle.ded_terminals.specs.Views.{seen_literal};

use crate::decimal::decimal_of;
use crate::item::{Item, Rest, text, value_of};
use ded_num::gcd;

/// The value of a literal in lowest terms, where numbers of 2^63 and above are read as 2^63.
#[derive(Clone, Copy, Debug)]
pub struct Literal {
    pub numerator: u64,
    pub denominator: u64,
}

/// The quotient of the number and the divisor without the rest, 0 where the divisor is 0.
pub fn divided(number: u64, by: u128) -> u64
    ensures { result ≡ number / by }
{
    match u128::from(number).checked_div(by) {
        Some(quotient) => quotient as u64,
        None => 0,
    }
}

/// The fraction in lowest terms.
fn lowest(numerator: u64, denominator: u64) -> Literal
    requires { 0 < denominator }
    ensures positive { 0 < result.denominator }
    ensures value { seen_literal result ≡ lowest numerator denominator }
{
    let by = gcd(i128::from(numerator), i128::from(denominator)).unsigned_abs();
    Literal {
        numerator: divided(numerator, by),
        denominator: divided(denominator, by),
    }
}

/// The literal of a quotient of digits, with what stands behind it; none where the denominator is 0.
fn quotient<'a>(numerator: &[u8], denominator: &[u8], rest: Rest<'a>) -> Option<(Literal, Rest<'a>)>
    ensures some { IfSome result (λ x. quotient_at capped numerator.now denominator.now (left rest.entry)
        ≡ Some (seen_literal x.0, left x.1)) }
    ensures none { IfNone result (quotient_at capped numerator.now denominator.now (left rest.entry) ≡ None) }
    ensures same { IfSome result (λ x. left x.1 ≡ left rest.entry) }
    ensures positive { IfSome result (λ x. 0 < x.0.denominator) }
{
    let below = value_of(denominator);
    if below == 0 {
        return None;
    }
    Some((lowest(value_of(numerator), below), rest))
}

/// The literal with which the rest begins, and what stands behind it; none where the rest begins with no literal, as
/// where a denominator is 0.
pub fn scalar(rest: Rest<'_>) -> Option<(Literal, Rest<'_>)>
    ensures some { IfSome result (λ x. scalar_at capped (left rest.entry) ≡ Some (seen_literal x.0, left x.1)) }
    ensures none { IfNone result (scalar_at capped (left rest.entry) ≡ None) }
    ensures low { IfSome result (λ x. length (left x.1) < length (left rest.entry)) }
    ensures positive { IfSome result (λ x. 0 < x.0.denominator) }
{
    match rest.items {
        [
            Item::Number(digits),
            Item::Slash,
            Item::Number(below),
            items @ ..,
        ] => quotient(
            text(rest.bytes, *digits),
            text(rest.bytes, *below),
            Rest { items, ..rest },
        ),
        [Item::Number(_), Item::Slash, ..] => None,
        [Item::Number(digits), items @ ..] => {
            let literal = Literal {
                numerator: value_of(text(rest.bytes, *digits)),
                denominator: 1,
            };
            Some((literal, Rest { items, ..rest }))
        }
        [Item::Decimal(decimal), items @ ..] => {
            let (number, power) = decimal_of(text(rest.bytes, *decimal));
            Some((lowest(number, power), Rest { items, ..rest }))
        }
        _ => None,
    }
}
