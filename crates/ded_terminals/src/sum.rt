//! Sums of products, each coefficient added up.
ghost use Rattle.std.specs.Prelude.{◌≡◌, ◌≤◌, ◌<◌, ◌^◌, ◌+ℤ◌, unsigned_abs, IfOk, option_map};
ghost use Rattle.std.specs.List.{AllByRecursion};
ghost use Rattle.std.specs.Str.{bytes_eq};
ghost use Rattle.ded_terminals.specs.Operands.{put, put_at, signed, as_sum};
ghost use Rattle.ded_terminals.specs.Views.{seen_totals, IsBounded};

use ded_model::formula::{Operand, Parts, Term};
use ded_model::memory::NoMemory;
use ded_model::name::Name;
use std::alloc::Global;

/// Names with their coefficients so far, in order of first occurrence, and the constant so far.
#[derive(Drop)]
pub struct Totals {
    pub parts: Vec<(Name, i128)>,
    pub constant: i128,
}

/// The sum of two numbers.
fn sum(a: i128, b: i128) -> i128
    requires small_a { unsigned_abs a ≤ 2 ^ 111 }
    requires small_b { unsigned_abs b ≤ 2 ^ 111 }
    ensures { result ≡ a +ℤ b }
{
    a + b
}

/// The number, or its negative where it is taken away.
fn signed(minus: bool, number: u128) -> i128
    requires { number ≤ 2 ^ 96 }
    ensures { result ≡ signed minus number }
{
    let number = number as i128;
    if minus { -number } else { number }
}

/// Whether the bytes are those of the name.
fn is_name(name: &Name, bytes: &[u8]) -> bool
    ensures { result ≡ bytes_eq name.now bytes.now }
{
    name.bytes.as_slice() == bytes
}

/// Adds the amount to the coefficient of the name, which is set at the end where no part has it.
fn put(
    alloc: Global,
    parts: &mut Vec<(Name, i128)>,
    name: &[u8],
    amount: i128,
) -> Result<(), NoMemory>
    requires small { AllByRecursion (λ c. unsigned_abs c.1 ≤ 2 ^ 111) parts.now.items }
    requires amount { unsigned_abs amount ≤ 2 ^ 111 }
    ensures { IfOk result (λ _. parts.new.items ≡ put parts.old.items name.now amount) }
{
    for i in 0..parts.len() {
        if is_name(&parts[i].0, name) {
            parts[i].1 = sum(parts[i].1, amount);
            return Ok(());
        }
    }
    parts.push((
        Name {
            bytes: name.to_vec(alloc)?,
        },
        amount,
    ))?;
    Ok(())
}

/// Adds the number to the coefficient of the name or to the constant, or takes it away.
///
/// # Errors
/// Out of memory.
pub fn add(
    alloc: Global,
    totals: &mut Totals,
    minus: bool,
    number: u128,
    name: Option<&[u8]>,
) -> Result<(), NoMemory>
    requires small { IsBounded (2 ^ 111) (seen_totals totals.now) }
    requires number { number ≤ 2 ^ 96 }
    ensures { IfOk result (λ _. seen_totals totals.new
        ≡ put_at (seen_totals totals.old) (option_map (λ n. n.now) name.entry) (signed minus number)) }
{
    let amount = signed(minus, number);
    match name {
        Some(name) => put(alloc, &mut totals.parts, name, amount),
        None => {
            totals.constant = sum(totals.constant, amount);
            Ok(())
        }
    }
}

/// The sum that the totals make over the number.
pub fn as_sum(over: u64, totals: Totals) -> Operand
    requires over { 0 < over }
    requires bounded { IsBounded (2 ^ 111) (seen_totals totals) }
    ensures { result ≡ as_sum over (seen_totals totals) }
{
    Operand::Sum(Term {
        parts: Parts { list: totals.parts },
        constant: totals.constant,
        over: i128::from(over),
    })
}
