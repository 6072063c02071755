//! Whether given certificates show that two relations have no common point.
ghost use Rattle.std.specs.Prelude.{◌≡◌, ◌↔◌, IsTrue, IfOk, IsErrOf};
ghost use Rattle.std.specs.List.{AllByRecursion};
ghost use Rattle.std.specs.Option.{option_map};
ghost use Rattle.ded_model.specs.declared.memory.Refused.TheVariants.{Wide};
ghost use Rattle.ded_cert.specs.Pairs.{entry_for, pairs_of, pairs_with, IsLongCheck, IsVerified, SomePair};

use crate::checking::check;
use ded_model::certificate::Entry;
use ded_model::memory::Refused;
use ded_model::tuple::Tuple;
use ded_packed::Packed;
use std::alloc::Global;
use std::collections::BTreeMap;

/// Whether for each pair of tuples of the two relations, given by their tuples under their numbers, the first entry
/// with its numbers shows that it has no common point. Other entries don't matter.
///
/// # Errors
/// `Wide` only where in the check of the first entry of some pair a number is too long, otherwise out of memory.
pub fn verify_all(
    alloc: Global,
    first: &BTreeMap<u32, Packed>,
    second: &BTreeMap<u32, Packed>,
    entries: &[Entry],
) -> Result<bool, Refused>
    ensures is { IfOk result (λ b. IsTrue b ↔ AllByRecursion (IsVerified entries.now)
        (pairs_of first.now.entries second.now.entries)) }
    ensures wide { IsErrOf result Wide → SomePair (IsLongCheck entries.now)
        (pairs_of first.now.entries second.now.entries) }
{
    for (number, packed) in first {
        let tuple = packed.unpack(alloc)?;
        if !are_verified(alloc, *number, &tuple, second, entries)? {
            return Ok(false);
        }
    }
    Ok(true)
}

/// Whether that is so for the pairs of one tuple.
fn are_verified(
    alloc: Global,
    number: u32,
    tuple: &Tuple,
    second: &BTreeMap<u32, Packed>,
    entries: &[Entry],
) -> Result<bool, Refused>
    ensures is { IfOk result (λ b. IsTrue b ↔ AllByRecursion (IsVerified entries.now)
        (pairs_with (number, tuple.now) second.now.entries)) }
    ensures wide { IsErrOf result Wide → SomePair (IsLongCheck entries.now)
        (pairs_with (number, tuple.now) second.now.entries) }
{
    for (other, packed) in second {
        let Some(entry) = entry_for(entries, u64::from(number), u64::from(*other)) else {
            return Ok(false);
        };
        let next = packed.unpack(alloc)?;
        if !check(alloc, tuple, &next, &entry.proof)? {
            return Ok(false);
        }
    }
    Ok(true)
}

/// The first entry with the numbers.
fn entry_for(entries: &[Entry], first: u64, second: u64) -> Option<&Entry>
    ensures { option_map (λ e. e.now) result ≡ entry_for entries.now first second }
{
    for entry in entries {
        if entry.first == first && entry.second == second {
            return Some(entry);
        }
    }
    None
}
