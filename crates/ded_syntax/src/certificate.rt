//! The entries of certificates: two numbers of tuples, and the word of texts or multipliers.
ghost use Rattle.std.specs.Prelude.{◌≡◌, ◌≤◌, ◌<◌, length, Some, None, IfSome, IfNone, IfOk, IfErr};
ghost use Rattle.std.specs.List.{AllByRecursion};
ghost use Rattle.ded_model.specs.declared.fault.ParseFault.TheVariants.{NotRead};
ghost use Rattle.ded_num.specs.Length.{IsShort};
ghost use Rattle.ded_syntax.specs.CertificateReading.{integer_at, integers_at, as_proof, proof_at, entry_at};
ghost use Rattle.ded_syntax.specs.CertificateReading.{entries_at};
ghost use Rattle.ded_syntax.specs.CommandReading.{certificate_at};
ghost use Rattle.ded_terminals.specs.Items.{capped_of, left};
ghost use Rattle.ded_terminals.specs.Literals.{capped_reader};
ghost use Rattle.ded_terminals.specs.Operands.{signed};

use crate::draft::{brace, empty, open_brace};
use ded_model::certificate::{Entry, Multipliers, Proof};
use ded_model::fault::ParseFault;
use ded_model::memory::NoMemory;
use ded_terminals::item::{Item, Keyword, Rest, text, value_of};
use ded_terminals::side::number;
use std::alloc::Global;

/// The number for which the digits stand, or its negative.
fn signed(minus: bool, digits: &[u8]) -> i128
    ensures value { result ≡ signed minus (capped_of digits.now) }
    ensures short { IsShort result }
{
    let number = i128::from(value_of(digits));
    if minus { -number } else { number }
}

/// The integer with which the rest begins, and what stands behind it; none where the rest begins with no integer.
fn integer(rest: Rest<'_>) -> Option<(i128, Rest<'_>)>
    ensures some { IfSome result (λ x. integer_at capped_reader (left rest.entry) ≡ Some (x.0, left x.1)) }
    ensures none { IfNone result (integer_at capped_reader (left rest.entry) ≡ None) }
    ensures low { IfSome result (λ x. length (left x.1) < length (left rest.entry)) }
    ensures short { IfSome result (λ x. IsShort x.0) }
{
    match rest.items {
        [Item::Minus, Item::Number(digits), items @ ..] => Some((
            signed(true, text(rest.bytes, *digits)),
            Rest { items, ..rest },
        )),
        [Item::Number(digits), items @ ..] => Some((
            signed(false, text(rest.bytes, *digits)),
            Rest { items, ..rest },
        )),
        _ => None,
    }
}

/// The integers with which the rest begins, as many as stand there, and what stands behind them.
fn integers(alloc: Global, items: Rest<'_>) -> Result<(Vec<i128>, Rest<'_>), NoMemory>
    ensures read { IfOk result (λ x. integers_at capped_reader (left items.entry) ≡ (x.0.items, left x.1)) }
    ensures short { IfOk result (λ x. AllByRecursion IsShort x.0.items) }
    ensures low { IfOk result (λ x. length (left x.1) ≤ length (left items.entry)) }
{
    let mut list = Vec::new(alloc);
    let mut rest = items;
    while let Some((next, behind)) = integer(rest) {
        list.push(next)?;
        rest = behind;
    }
    Ok((list, rest))
}

/// The proof by the multipliers with which the rest begins, and what stands behind it.
fn multipliers(alloc: Global, rest: Rest<'_>) -> Result<(Proof, Rest<'_>), NoMemory>
    ensures read { IfOk result (λ x. as_proof (integers_at capped_reader (left rest.entry)) ≡ (x.0, left x.1)) }
    ensures low { IfOk result (λ x. length (left x.1) ≤ length (left rest.entry)) }
{
    let (list, rest) = integers(alloc, rest)?;
    Ok((Proof::Multipliers(Multipliers { list }), rest))
}

/// The proof with which the rest begins, and what stands behind it.
fn proof(alloc: Global, rest: Rest<'_>) -> Result<(Proof, Rest<'_>), ParseFault>
    ensures read { IfOk result (λ x. proof_at capped_reader (left rest.entry) ≡ Some (x.0, left x.1)) }
    ensures unread { IfErr result (λ e. e ≡ NotRead → proof_at capped_reader (left rest.entry) ≡ None) }
    ensures low { IfOk result (λ x. length (left x.1) < length (left rest.entry)) }
{
    match rest.items {
        [Item::Word(Keyword::Text), items @ ..] => Ok((Proof::Text, Rest { items, ..rest })),
        [Item::Colon, items @ ..] => Ok(multipliers(alloc, Rest { items, ..rest })?),
        _ => Err(ParseFault::NotRead),
    }
}

/// The entry with which the rest begins, and what stands behind it.
fn entry(alloc: Global, rest: Rest<'_>) -> Result<(Entry, Rest<'_>), ParseFault>
    ensures read { IfOk result (λ x. entry_at capped_reader (left rest.entry) ≡ Some (x.0, left x.1)) }
    ensures unread { IfErr result (λ e. e ≡ NotRead → entry_at capped_reader (left rest.entry) ≡ None) }
    ensures low { IfOk result (λ x. length (left x.1) < length (left rest.entry)) }
{
    let Some((first, rest)) = number(rest) else {
        return Err(ParseFault::NotRead);
    };
    let Some((second, rest)) = number(rest) else {
        return Err(ParseFault::NotRead);
    };
    let (proof, rest) = proof(alloc, rest)?;
    let (first, second) = (value_of(first), value_of(second));
    Ok((
        Entry {
            first,
            second,
            proof,
        },
        rest,
    ))
}

/// The entries up to the closing brace, and what stands behind that.
fn entries(alloc: Global, items: Rest<'_>) -> Result<(Vec<Entry>, Rest<'_>), ParseFault>
    ensures read { IfOk result (λ x. entries_at capped_reader (left items.entry) ≡ Some (x.0.items, left x.1)) }
    ensures unread { IfErr result (λ e. e ≡ NotRead → entries_at capped_reader (left items.entry) ≡ None) }
{
    let mut list = Vec::new(alloc);
    let mut rest = items;
    // Each entry has an item at least.
    for _ in 0..items.items.len() {
        let (next, after) = entry(alloc, rest)?;
        list.push(next)?;
        let Some((goes_on, behind)) = brace(after) else {
            return Err(ParseFault::NotRead);
        };
        if !goes_on {
            return Ok((list, behind));
        }
        rest = behind;
    }
    Err(ParseFault::NotRead)
}

/// The entries, if any, in the braces with which the rest begins, and what stands behind the braces.
///
/// # Errors
/// `NotRead` only where the rest begins with no braces that are empty or have entries in them, otherwise out of memory.
pub fn certificate(alloc: Global, rest: Rest<'_>) -> Result<(Vec<Entry>, Rest<'_>), ParseFault>
    ensures read { IfOk result (λ x. certificate_at capped_reader (left rest.entry) ≡ Some (x.0.items, left x.1)) }
    ensures unread { IfErr result (λ e. e ≡ NotRead → certificate_at capped_reader (left rest.entry) ≡ None) }
{
    if let Some(rest) = empty(rest) {
        return Ok((Vec::new(alloc), rest));
    }
    let Some(rest) = open_brace(rest) else {
        return Err(ParseFault::NotRead);
    };
    entries(alloc, rest)
}
