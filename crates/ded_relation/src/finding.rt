//! The tuples of a relation that may hold in a window, and all of them. Each that is looked at is a step, and so is
//! each number that is looked up.
ghost use Rattle.std.specs.Prelude.{◌≡◌, ◌≤◌, ◌+◌, ◌<◌, ◌++◌, ◌∷◌, [], length, IfOk};
ghost use Rattle.std.specs.Option.{option_map};
ghost use Rattle.ded_relation.specs.Nearby.{numbered, AreNear, AddsNear, with_number, picked};

use ded_model::memory::NoMemory;
use ded_model::steps::Steps;
use ded_packed::Packed;
use ded_ranges::Sieve;
use std::alloc::Global;
use std::collections::BTreeMap;
use std::marker::Brand;
use std::sync::ledger::{Blank, Ledger};

/// The tuples that may hold in the window of the sieve, with their numbers, in order.
///
/// # Errors
/// Out of memory.
pub(crate) fn sifted<'a, L: Ledger>(
    alloc: Global,
    tuples: &'a BTreeMap<u32, Packed>,
    sieve: &Sieve,
    steps: &mut Steps<L>,
) -> Result<Vec<(u32, &'a Packed)>, NoMemory>
    ensures found { IfOk result (λ found. AreNear sieve.now (numbered found.items) tuples.now.entries) }
    ensures steps { steps.new ≤ steps.old + length tuples.now.entries }
    ensures read { IfOk result (λ found. steps.old + length found.items ≤ steps.new) }
{
    let mut found = Vec::new(alloc);
    for (number, tuple) in tuples {
        steps.tick();
        push_if_near(alloc, sieve, *number, tuple, &mut found)?;
    }
    Ok(found)
}

/// All tuples with their numbers, in order.
///
/// # Errors
/// Out of memory.
pub(crate) fn listed<'a, L: Ledger>(
    alloc: Global,
    tuples: &'a BTreeMap<u32, Packed>,
    steps: &mut Steps<L>,
) -> Result<Vec<(u32, &'a Packed)>, NoMemory>
    ensures list { IfOk result (λ list. numbered list.items ≡ tuples.now.entries) }
    ensures steps { steps.new ≤ steps.old + length tuples.now.entries }
    ensures read { IfOk result (λ list. steps.old + length list.items ≤ steps.new) }
{
    let mut list = Vec::with_capacity(alloc, tuples.len())?;
    for (number, tuple) in tuples {
        steps.tick();
        list.push((*number, tuple))?;
    }
    Ok(list)
}

/// All tuples with their numbers, in order, without counting steps.
///
/// # Errors
/// Out of memory.
pub fn all(alloc: Global, tuples: &BTreeMap<u32, Packed>) -> Result<Vec<(u32, &Packed)>, NoMemory>
    ensures { IfOk result (λ list. numbered list.items ≡ tuples.now.entries) }
{
    all_over::<Brand>(alloc, tuples, Blank::new(1))
}

/// All tuples with their numbers, in order, with the steps counted on a new ledger.
///
/// # Errors
/// Out of memory.
fn all_over<'a, L: Ledger>(
    alloc: Global,
    tuples: &'a BTreeMap<u32, Packed>,
    blank: Blank,
) -> Result<Vec<(u32, &'a Packed)>, NoMemory>
    requires name { blank.name ≡ L.name }
    requires parts { blank.parts ≡ L.parts }
    requires some { 0 < L.parts }
    ensures { IfOk result (λ list. numbered list.items ≡ tuples.now.entries) }
{
    let mut steps = Steps::<L>::new(blank);
    listed(alloc, tuples, &mut steps)
}

/// The tuples of the numbers, with the numbers, in the order of these.
///
/// # Errors
/// Out of memory.
pub(crate) fn picked<'a, L: Ledger>(
    alloc: Global,
    tuples: &'a BTreeMap<u32, Packed>,
    numbers: &[u32],
    steps: &mut Steps<L>,
) -> Result<Vec<(u32, &'a Packed)>, NoMemory>
    ensures found { IfOk result (λ found. numbered found.items ≡ picked numbers.now tuples.now.entries) }
    ensures steps { steps.new ≤ steps.old + length numbers.now }
    ensures read { IfOk result (λ found. steps.old + length found.items ≤ steps.new) }
{
    let mut found = Vec::with_capacity(alloc, numbers.len())?;
    for number in numbers {
        steps.tick();
        push_there(*number, tuples.get(number), &mut found)?;
    }
    Ok(found)
}

/// Adds the tuple under its number, if there is one.
///
/// # Errors
/// Out of memory.
fn push_there<'a>(
    number: u32,
    tuple: Option<&'a Packed>,
    found: &mut Vec<(u32, &'a Packed)>,
) -> Result<(), NoMemory>
    ensures there { IfOk result (λ _. numbered found.new.items
        ≡ numbered found.old.items ++ with_number number (option_map (λ t. t.now) tuple.entry)) }
    ensures count { IfOk result (λ _. length found.new.items ≤ length found.old.items + 1) }
{
    match tuple {
        Some(tuple) => Ok(found.push((number, tuple))?),
        None => Ok(()),
    }
}

/// The tuples of the numbers that may hold in the window of the sieve, with the numbers, in the order of these.
///
/// # Errors
/// Out of memory.
pub(crate) fn looked_up<'a, L: Ledger>(
    alloc: Global,
    tuples: &'a BTreeMap<u32, Packed>,
    numbers: &[u32],
    sieve: &Sieve,
    steps: &mut Steps<L>,
) -> Result<Vec<(u32, &'a Packed)>, NoMemory>
    ensures found { IfOk result (λ found. AreNear sieve.now (numbered found.items)
        (picked numbers.now tuples.now.entries)) }
    ensures steps { steps.new ≤ steps.old + length numbers.now }
    ensures read { IfOk result (λ found. steps.old + length found.items ≤ steps.new) }
{
    let mut found = Vec::new(alloc);
    for number in numbers {
        steps.tick();
        push_if_there(alloc, sieve, *number, tuples.get(number), &mut found)?;
    }
    Ok(found)
}

/// Adds the tuple under its number, if there is one and it may hold in the window of the sieve.
///
/// # Errors
/// Out of memory.
fn push_if_there<'a>(
    alloc: Global,
    sieve: &Sieve,
    number: u32,
    tuple: Option<&'a Packed>,
    found: &mut Vec<(u32, &'a Packed)>,
) -> Result<(), NoMemory>
    ensures near { IfOk result (λ _. AddsNear sieve.now (with_number number (option_map (λ t. t.now) tuple.entry))
        (numbered found.old.items) (numbered found.new.items)) }
    ensures count { IfOk result (λ _. length found.new.items ≤ length found.old.items + 1) }
{
    match tuple {
        Some(tuple) => push_if_near(alloc, sieve, number, tuple, found),
        None => Ok(()),
    }
}

/// Adds the tuple under its number where it may hold in the window of the sieve.
///
/// # Errors
/// Out of memory.
fn push_if_near<'a>(
    alloc: Global,
    sieve: &Sieve,
    number: u32,
    tuple: &'a Packed,
    found: &mut Vec<(u32, &'a Packed)>,
) -> Result<(), NoMemory>
    ensures near { IfOk result (λ _. AddsNear sieve.now ((number, tuple.now) ∷ []) (numbered found.old.items)
        (numbered found.new.items)) }
    ensures count { IfOk result (λ _. length found.new.items ≤ length found.old.items + 1) }
{
    if sieve.may_hold(&tuple.unpack(alloc)?) {
        found.push((number, tuple))?;
    }
    Ok(())
}
