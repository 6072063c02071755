//! Entries, the hulls of lists of them, and how such lists are split.
ghost use Rattle.std.specs.Prelude.{◌≡◌, ◌<◌, ◌≤◌, ◌+◌, ◌%◌, ◌++◌, List, [], ◌∷◌, length, IfOk};
ghost use Rattle.std.specs.List.Sorted.{IsPermutation};
ghost use Rattle.ded_hull.specs.declared.entry.ReachEntry.{ReachEntry};
ghost use Rattle.ded_hull.specs.Entries.{ids_in, of_keys, Covers};
ghost use Rattle.ded_hull.specs.Segments.{middle, middle_order, AreSegments, InOrder, IsHull, IsFirst};

use ded_model::memory::NoMemory;
use ded_model::steps::Steps;
use ded_ranges::{Probe, Range, Reach};
use std::alloc::Global;
use std::cmp::Ordering;
use std::collections::BTreeMap;
use std::sync::ledger::Ledger;

/// How many times a list that is sorted once is halved.
const LEVELS: u32 = 2;

/// A reach under a number.
#[derive(Drop)]
pub struct ReachEntry {
    pub id: u32,
    pub reach: Reach,
}

/// A hull of the entries, whose ends are ends of theirs where each has one range.
///
/// # Errors
/// Out of memory.
pub(crate) fn hull_of(alloc: Global, entries: &[ReachEntry]) -> Result<Reach, NoMemory>
    ensures covers { IfOk result (λ h. Covers h entries.now) }
    ensures hull { IfOk result (λ h. AreSegments entries.now → 0 < length entries.now → IsHull h entries.now) }
{
    let mut hull = first_reach(alloc, entries)?;
    cover(&mut hull, entries);
    Ok(hull)
}

/// The reach of the first entry, if there is one.
///
/// # Errors
/// Out of memory.
fn first_reach(alloc: Global, entries: &[ReachEntry]) -> Result<Reach, NoMemory>
    ensures { IfOk result (λ h. IsFirst h entries.now) }
{
    match entries {
        [first, ..] => first.reach.copy(),
        [] => Ok(Reach::new(alloc)),
    }
}

/// Widens the hull to one of the entries too.
fn cover(hull: &mut Reach, entries: &[ReachEntry])
    ensures covers { Covers hull.new entries.now }
    ensures hull { (xs : List ReachEntry) → IsHull hull.old xs → AreSegments entries.now
        → IsHull hull.new (xs ++ entries.now) }
{
    for i in 0..entries.len() {
        hull.widen(&entries[i].reach);
    }
}

/// Adds the numbers of the entries in whose reaches the limits may hold. Each entry that is looked at is a step.
///
/// # Errors
/// Out of memory.
pub(crate) fn push_passing<L: Ledger>(
    entries: &[ReachEntry],
    probe: &Probe,
    found: &mut Vec<u32>,
    steps: &mut Steps<L>,
) -> Result<(), NoMemory>
    ensures found { IfOk result (λ _. found.new.items ≡ found.old.items ++ ids_in probe.now entries.now) }
    ensures steps { steps.new ≤ steps.old + length entries.now }
    ensures forward { steps.old ≤ steps.new }
{
    for i in 0..entries.len() {
        steps.tick();
        push_if_passing(&entries[i], probe, found)?;
    }
    Ok(())
}

/// Adds the number of the entry where the limits may hold in its reach.
fn push_if_passing(entry: &ReachEntry, probe: &Probe, found: &mut Vec<u32>) -> Result<(), NoMemory>
    ensures { IfOk result (λ _. found.new.items ≡ found.old.items ++ ids_in probe.now (entry.now ∷ [])) }
{
    if probe.may_hold(&entry.reach) {
        found.push(entry.id)?;
    }
    Ok(())
}

/// Adds copies of the entries.
///
/// # Errors
/// Out of memory.
pub(crate) fn copy_all(from: &[ReachEntry], to: &mut Vec<ReachEntry>) -> Result<(), NoMemory>
    ensures { IfOk result (λ _. to.new.items ≡ to.old.items ++ from.now) }
{
    for i in 0..from.len() {
        to.push(ReachEntry {
            id: from[i].id,
            reach: from[i].reach.copy()?,
        })?;
    }
    Ok(())
}

/// On every second level, sorts the entries by their middles in the column in which these lie farthest apart. So each
/// sort is good for four parts.
pub(crate) fn arrange(entries: &mut [ReachEntry], level: u32)
    ensures entries { IsPermutation entries.old entries.new }
    ensures order { AreSegments entries.old → (0 < level % 2 → InOrder entries.old) → InOrder entries.new }
{
    if level % LEVELS == 0 {
        let place = widest(entries);
        entries.sort_unstable_by(|a, b| order(a, b, place));
    }
}

/// The order of the middles of two entries in a column.
fn order(a: &ReachEntry, b: &ReachEntry, place: usize) -> Ordering
    ensures { result ≡ middle_order place a.now b.now }
{
    middle(a.reach.at(place)).cmp(&middle(b.reach.at(place)))
}

/// The column, of those of the first entry, in which the middles of the entries lie farthest apart.
fn widest(entries: &[ReachEntry]) -> usize
    ensures { AreSegments entries.now → result ≡ 0 }
{
    let mut best = 0;
    let mut most = 0;
    for place in 0..width(entries) {
        let apart = spread(entries, place);
        if most < apart {
            most = apart;
            best = place;
        }
    }
    best
}

/// How many columns the reach of the first entry has.
fn width(entries: &[ReachEntry]) -> usize
    ensures { AreSegments entries.now → result ≤ 1 }
{
    match entries {
        [first, ..] => first.reach.ranges().len(),
        [] => 0,
    }
}

/// How far the middles of the entries lie apart in a column, twice.
fn spread(entries: &[ReachEntry], place: usize) -> i128 {
    let mut least = i128::MAX;
    let mut greatest = i128::MIN;
    for entry in entries {
        let middle = middle(entry.reach.at(place));
        least = least.min(middle);
        greatest = greatest.max(middle);
    }
    greatest.saturating_sub(least)
}

/// Twice the middle of a range, or twice its one end, in units; 0 where it has none.
fn middle(range: Range) -> i128
    ensures { result ≡ middle range }
{
    match (range.low.units(), range.high.units()) {
        (Some(low), Some(high)) => low + high,
        (Some(end), None) | (None, Some(end)) => end + end,
        (None, None) => 0,
    }
}

/// Keeps the entries whose numbers are keys of the map.
pub(crate) fn keep_present<V>(entries: &mut Vec<ReachEntry>, present: &BTreeMap<u32, V>)
    ensures { entries.new.items ≡ of_keys present.now.entries entries.old.items }
{
    entries.retain(|entry| present.contains_key(&entry.id));
}
