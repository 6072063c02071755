//! Certificates that no tuple of one relation has a common point with one of another.
ghost use Rattle.std.specs.Prelude.{◌≡◌, ◌++◌, List, MatchOption, IfOk, IsErrOf};
ghost use Rattle.ded_model.specs.declared.memory.Refused.TheVariants.{Wide};
ghost use Rattle.ded_cert.specs.Pairs.{Numbered, pairs_of, pairs_with, AreEntriesOf, IsFirstMeeting, IsWide, SomePair};
ghost use Rattle.ded_cert.specs.Told.{IsTold};

use crate::certifying::{Outcome, certify};
use ded_model::certificate::{Entry, Proof};
use ded_model::memory::Refused;
use ded_model::tuple::Tuple;
use ded_packed::Packed;
use std::alloc::Global;
use std::collections::BTreeMap;

/// What is answered of two relations.
#[derive(Drop)]
pub enum Disjointness {
    /// They have no common point, as the certificates show, one for each pair of tuples.
    Apart(Vec<Entry>),
    /// The tuples of these numbers have a common point.
    Meet(u32, u32),
}

/// Certificates that the two relations, given by their tuples under their numbers, have no common point, or the numbers
/// of the first pair of tuples that has one. Pairs are ordered by the number in the first relation, and then by that in
/// the second.
///
/// # Errors
/// `Wide` only where some pair is wide, otherwise out of memory.
pub fn certify_all(
    alloc: Global,
    first: &BTreeMap<u32, Packed>,
    second: &BTreeMap<u32, Packed>,
) -> Result<Disjointness, Refused>
    ensures is { IfOk result (IsTold (pairs_of first.now.entries second.now.entries)) }
    ensures wide { IsErrOf result Wide → SomePair IsWide (pairs_of first.now.entries second.now.entries) }
{
    let mut entries = Vec::new(alloc);
    for (number, packed) in first {
        let tuple = packed.unpack(alloc)?;
        if let Some(other) = add_entries(alloc, &mut entries, *number, &tuple, second)? {
            return Ok(Disjointness::Meet(*number, other));
        }
    }
    Ok(Disjointness::Apart(entries))
}

/// Adds a certificate for the tuple with each of the relation, up to the first one with which it has a common point,
/// whose number it gives.
fn add_entries(
    alloc: Global,
    entries: &mut Vec<Entry>,
    number: u32,
    tuple: &Tuple,
    second: &BTreeMap<u32, Packed>,
) -> Result<Option<u32>, Refused>
    ensures is { IfOk result (λ m. (done : List (Numbered × Numbered)) → AreEntriesOf done entries.old.items →
        MatchOption m (AreEntriesOf (done ++ pairs_with (number, tuple.now) second.now.entries) entries.new.items)
        (λ j. IsFirstMeeting (pairs_with (number, tuple.now) second.now.entries) number j)) }
    ensures wide { IsErrOf result Wide → SomePair IsWide (pairs_with (number, tuple.now) second.now.entries) }
{
    for (other, packed) in second {
        let next = packed.unpack(alloc)?;
        match certify(alloc, tuple, &next)? {
            Outcome::Common => return Ok(Some(*other)),
            Outcome::Apart(proof) => entries.push(entry(number, *other, proof))?,
        }
    }
    Ok(None)
}

/// The entry of two numbers.
fn entry(first: u32, second: u32, proof: Proof) -> Entry
    ensures { result ≡ record { first = first; second = second; proof = proof } }
{
    Entry {
        first: u64::from(first),
        second: u64::from(second),
        proof,
    }
}
