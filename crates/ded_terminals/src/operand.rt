//! Operands, from the sides that are read, over the common denominator of their literals.
ghost use Rattle.std.specs.Prelude.{◌≡◌, ◌≤◌, ◌<◌, ℕ, ◌^◌, ◌++◌, ◌*◌, length, IfOk};
ghost use Rattle.std.specs.List.{list_any};
ghost use Rattle.ded_lex.specs.Tokens.{quoted_value};
ghost use Rattle.ded_terminals.specs.Literals.{capped, capped_reader, lcm, capped_from, is_long_over, are_long_over};
ghost use Rattle.ded_terminals.specs.Literals.{marked_numerator};
ghost use Rattle.ded_terminals.specs.Operands.{literals, literals_of, no_sums, added, total_from, operand_over};
ghost use Rattle.ded_terminals.specs.Operands.{denominator_of, argument_of};
ghost use Rattle.ded_terminals.specs.Views.{seen_literal, seen_part, seen_parts, seen_side, seen_totals, AreSmall};
ghost use Rattle.ded_terminals.specs.Views.{ArePositive, IsFit, IsBounded};

use crate::scalar::{Literal, divided};
use crate::side::{ParsedSide, SignedFactor};
use crate::sum::{Totals, add, as_sum};
use ded_model::formula::Operand;
use ded_model::limits;
use ded_model::memory::NoMemory;
use ded_model::name::Name;
use ded_num::gcd;
use std::alloc::Global;

/// The greatest numerator over a common denominator.
const GREATEST_NUMERATOR: u128 = 1 << 96;

/// A name of these bytes.
///
/// # Errors
/// Out of memory.
pub fn name_of(alloc: Global, bytes: &[u8]) -> Result<Name, NoMemory>
    ensures { IfOk result (λ n. n ≡ bytes.now) }
{
    Ok(Name {
        bytes: bytes.to_vec(alloc)?,
    })
}

/// The value of a quoted text, given with its quotes: each quote between them is doubled.
fn quoted_of(alloc: Global, text: &[u8]) -> Result<Name, NoMemory>
    ensures { IfOk result (λ n. n ≡ quoted_value text.now) }
{
    let mut bytes = Vec::new(alloc);
    let mut rest = text.split_first().map_or(text, |(_, rest)| rest);
    while let [byte, next, after @ ..] = rest {
        bytes.push(*byte)?;
        rest = if *byte == b'\'' { after } else { &rest[1..] };
    }
    Ok(Name { bytes })
}

// ---- what sums are over

/// The least common multiple of the numbers, or 2^63 where it is above that.
fn lcm(a: u64, b: u64) -> u64
    requires positive_a { 0 < a }
    requires positive_b { 0 < b }
    ensures positive { 0 < result }
    ensures value { result ≡ capped (lcm a b) }
{
    let by = gcd(i128::from(a), i128::from(b)).unsigned_abs();
    let multiple = u128::from(divided(a, by)) * u128::from(b);
    multiple.min(u128::from(limits::TOO_GREAT)) as u64
}

/// The least common multiple of the number and the denominators of the parts, or 2^63 where it is above that.
fn lcm_with(over: u64, parts: &[SignedFactor<'_>]) -> u64
    requires over { 0 < over }
    requires parts { ArePositive parts.now }
    ensures positive { 0 < result }
    ensures value { result ≡ capped_from over (literals_of (seen_parts parts.now)) }
{
    let mut common = over;
    for part in parts {
        common = lcm(common, part.factor.literal.denominator);
    }
    common
}

/// The numerator of the literal over the number, 0 where that is 2^63 or above.
fn numerator(over: u64, literal: Literal) -> u128
    ensures { result ≡ marked_numerator over (seen_literal literal) }
{
    if over >= limits::TOO_GREAT {
        return 0;
    }
    u128::from(literal.numerator) * u128::from(divided(over, u128::from(literal.denominator)))
}

/// Whether the numerator of the literal over the number is above 2^96.
fn is_long_over(over: u64, literal: Literal) -> bool
    ensures { result ≡ is_long_over over (seen_literal literal) }
{
    let times = divided(over, u128::from(literal.denominator));
    u128::from(literal.numerator) * u128::from(times) > GREATEST_NUMERATOR
}

/// Whether the numerator of a literal of the parts over the number is above 2^96.
fn some_long_over(over: u64, parts: &[SignedFactor<'_>]) -> bool
    ensures { result ≡ list_any (is_long_over over) (literals_of (seen_parts parts.now)) }
{
    for part in parts {
        if is_long_over(over, part.factor.literal) {
            return true;
        }
    }
    false
}

/// The parts of a sum; none of another side.
fn parts_of<'a, 'b>(side: &'a ParsedSide<'b>) -> &'a [SignedFactor<'b>]
    ensures literals { literals_of (seen_parts result.now) ≡ literals (seen_side side.now) }
    ensures positive { (n : ℕ) → IsFit side.now n → ArePositive result.now }
{
    match side {
        ParsedSide::Sum(parts) => parts,
        ParsedSide::Quoted(_) | ParsedSide::Name(_) => &[],
    }
}

/// Whether the number is above 2^63 - 1, or the numerator of a literal of the parts over it is above 2^96.
#[tactic(auto, using(crate::proofs::Tests::any_split))]
fn are_long_over(over: u64, first: &[SignedFactor<'_>], second: &[SignedFactor<'_>]) -> bool
    ensures { result ≡ are_long_over over (literals_of (seen_parts first.now) ++ literals_of (seen_parts second.now)) }
{
    over >= limits::TOO_GREAT || some_long_over(over, first) || some_long_over(over, second)
}

/// What sums are over that have the literals of both sides: their common denominator, or 2^63 where that is above 2^63
/// - 1 or a literal over it is too long.
fn denominator_of(left: &ParsedSide<'_>, right: &ParsedSide<'_>) -> u64
    requires left { IsFit left.now 65536 }
    requires right { IsFit right.now 65536 }
    ensures positive { 0 < result }
    ensures value { result ≡ denominator_of capped_reader (seen_side left.now) (seen_side right.now) }
    ensures small { AreSmall result (literals (seen_side left.now)) × AreSmall result (literals (seen_side right.now)) }
{
    let (first, second) = (parts_of(left), parts_of(right));
    let over = lcm_with(lcm_with(1, first), second);
    if are_long_over(over, first, second) {
        limits::TOO_GREAT
    } else {
        over
    }
}

// ---- operands

/// Adds the part to the totals over the number, or takes it away from them.
fn add_part(
    alloc: Global,
    totals: &mut Totals,
    over: u64,
    part: &SignedFactor<'_>,
) -> Result<(), NoMemory>
    requires bounded { IsBounded (2 ^ 111) (seen_totals totals.now) }
    requires small { marked_numerator over (seen_literal part.now.factor.literal) ≤ 2 ^ 96 }
    ensures { IfOk result (λ _. seen_totals totals.new
        ≡ added marked_numerator over (seen_totals totals.old) (seen_part part.now)) }
{
    let number = numerator(over, part.factor.literal);
    add(alloc, totals, part.minus, number, part.factor.name)
}

/// The sum of the parts over the number.
fn summed(alloc: Global, over: u64, parts: &[SignedFactor<'_>]) -> Result<Totals, NoMemory>
    requires small { AreSmall over (literals_of (seen_parts parts.now)) }
    requires few { length parts.now ≤ 2 ^ 15 }
    ensures value { IfOk result (λ t. seen_totals t ≡ total_from marked_numerator over no_sums (seen_parts parts.now)) }
    ensures bounded { IfOk result (λ t. IsBounded (2 ^ 111) (seen_totals t)) }
{
    let mut totals = Totals {
        parts: Vec::new(alloc),
        constant: 0,
    };
    for part in parts {
        add_part(alloc, &mut totals, over, part)?;
    }
    Ok(totals)
}

/// The operand that the side is, with its sum over the number.
fn operand_over(alloc: Global, over: u64, side: &ParsedSide<'_>) -> Result<Operand, NoMemory>
    requires small { AreSmall over (literals (seen_side side.now)) }
    requires positive { 0 < over }
    requires fit { IsFit side.now 65536 }
    ensures { IfOk result (λ o. o ≡ operand_over capped_reader over (seen_side side.now)) }
{
    match side {
        ParsedSide::Quoted(text) => Ok(Operand::Quoted(quoted_of(alloc, text)?)),
        ParsedSide::Name(name) => Ok(Operand::Single(name_of(alloc, name)?)),
        ParsedSide::Sum(parts) => Ok(as_sum(over, summed(alloc, over, parts)?)),
    }
}

/// The operands that both sides of a comparison are, over the common denominator of their literals.
///
/// # Errors
/// Out of memory.
pub(crate) fn operands_of(
    alloc: Global,
    left: &ParsedSide<'_>,
    right: &ParsedSide<'_>,
) -> Result<(Operand, Operand), NoMemory>
    requires left { IsFit left.now 65536 }
    requires right { IsFit right.now 65536 }
    ensures left { IfOk result (λ o. o.0 ≡ operand_over capped_reader
        (denominator_of capped_reader (seen_side left.now) (seen_side right.now)) (seen_side left.now)) }
    ensures right { IfOk result (λ o. o.1 ≡ operand_over capped_reader
        (denominator_of capped_reader (seen_side left.now) (seen_side right.now)) (seen_side right.now)) }
{
    let over = denominator_of(left, right);
    Ok((
        operand_over(alloc, over, left)?,
        operand_over(alloc, over, right)?,
    ))
}

/// The operand that the side is as an argument, over the common denominator of its literals.
///
/// # Errors
/// Out of memory.
pub(crate) fn argument_of(alloc: Global, side: &ParsedSide<'_>) -> Result<Operand, NoMemory>
    requires fit { IsFit side.now 65536 }
    ensures { IfOk result (λ o. o ≡ argument_of capped_reader (seen_side side.now)) }
{
    let none = ParsedSide::Sum(Vec::new(alloc));
    operand_over(alloc, denominator_of(side, &none), side)
}
