//! The index: a few trees, and a list of what is new.
//!
//! Entries are moved and never copied. The trees that become one give their entries to the list, which takes over the
//! memory of the largest, and the new tree takes over the list. Where memory for a tree is wanting, its entries stay in
//! the list, and none is lost.
ghost use Rattle.std.specs.Prelude.{◌≡◌, ◌<◌, ◌≤◌, ◌+◌, ◌-◌, ◌^◌, ◌++◌, ◌∷◌, [], min, length, take, drop, IfOk, OnOk};
ghost use Rattle.std.specs.Prelude.{OnErr};
ghost use Rattle.std.specs.List.Sorted.{IsPermutation};
ghost use Rattle.ded_hull.specs.Entries.{ids_in, of_keys, AreFound, IsComplete, most_steps};
ghost use Rattle.ded_hull.specs.Segments.{AreSegments};
ghost use Rattle.ded_hull.specs.Trees.{all_of, AreAlong, AreFalling, IsRoomFor, IsCostOfAll};

use crate::entry::{ReachEntry, copy_all, keep_present, push_passing};
use crate::tree::Tree;
use ded_model::memory::NoMemory;
use ded_model::steps::Steps;
use ded_ranges::{Limit, Probe, Reach};
use std::alloc::Global;
use std::collections::BTreeMap;
use std::marker::Model;
use std::sync::ledger::Ledger;

/// With how many new entries the list beside the trees is full, and a tree is made of it. A look-up asks each entry of
/// the list by itself, so a longer one makes look-ups slower; a shorter one makes trees more often, so that entries
/// move more often. It is the number of which [`Hulls::insert`] promises that no more stand in no tree.
const FULL_LIST: usize = 32;

/// Reaches under numbers. Contracts see the list of the entries, and how many of them stand in no tree.
///
/// New entries stand in a list. When it is full, they and those of all last trees that have less than twice as many
/// become one tree. So each entry moves few times, and each tree has at least twice as many entries as the next one.
#[derive(Drop)]
pub struct Hulls {
    trees: Vec<Tree>,
    tail: Vec<ReachEntry>,
}

impl Model for Hulls {
    ghost use Rattle.std.specs.Prelude.{◌++◌, length};
    ghost use Rattle.ded_hull.specs.Entries.{Hulls};
    ghost use Rattle.ded_hull.specs.Trees.{all_of, AreFalling};

    ghost Value = { Hulls };

    ghost view = { λ x. record { entries = all_of x.trees.items ++ x.tail.items; loose = length x.tail.items } };

    ghost invariant = { λ x. AreFalling x.trees.items };
}

impl Hulls {
    /// No entries.
    pub fn new(alloc: Global) -> Hulls
        ensures { result ≡ record { entries = []; loose = 0 } }
    {
        Hulls {
            trees: Vec::new(alloc),
            tail: Vec::new(alloc),
        }
    }

    /// How many entries there are, as far as they can be counted.
    pub fn count(&self) -> usize
        ensures { result ≡ min (length self.now.entries) (2 ^ 64 - 1) }
    {
        count_in(&self.trees).saturating_add(self.tail.len())
    }

    /// Adds an entry. At most 32 entries stand in no tree then.
    ///
    /// # Errors
    /// Out of memory; the entries are the same then, maybe in another order, and any number of them may stand in no
    /// tree until one is inserted.
    pub fn insert(&mut self, id: u32, reach: Reach) -> Result<(), NoMemory>
        ensures inserted { IfOk result (λ _. IsPermutation
            (record { id = id; reach = reach } ∷ self.old.entries) self.new.entries) }
        ensures settled { IfOk result (λ _. self.new.loose ≤ 32) }
        ensures kept { OnErr result (IsPermutation self.old.entries self.new.entries) }
    {
        settle(&mut self.trees, &mut self.tail)?;
        self.tail.push(ReachEntry { id, reach })?;
        Ok(())
    }

    /// Keeps the entries whose numbers are keys of the map, in another order. Where there is no memory for a tree of
    /// them, all stand in none until one is inserted.
    ///
    /// # Errors
    /// Out of memory; the entries are the same then, and any number of them may stand in no tree.
    pub fn retain<V>(&mut self, present: &BTreeMap<u32, V>) -> Result<(), NoMemory>
        ensures kept { OnOk result (IsPermutation (of_keys present.now.entries self.old.entries) self.new.entries) }
        ensures unchanged { OnErr result (self.new.entries ≡ self.old.entries) }
    {
        gather(&mut self.trees, 0, &mut self.tail)?;
        keep_present(&mut self.tail, present);
        self.tail.shrink_to_fit();
        // without memory for a tree all stand in the list
        let _ = plant(&mut self.trees, &mut self.tail);
        Ok(())
    }

    /// The same entries, in another order, each in a tree.
    ///
    /// # Errors
    /// Out of memory.
    pub fn copy(&self, alloc: Global) -> Result<Hulls, NoMemory>
        ensures entries { IfOk result (λ h. IsPermutation self.now.entries h.entries) }
        ensures settled { IfOk result (λ h. h.loose ≡ 0) }
    {
        let mut tail = Vec::with_capacity(alloc, self.count())?;
        copy_trees(&self.trees, &mut tail)?;
        copy_all(&self.tail, &mut tail)?;
        let mut trees = Vec::new(alloc);
        plant(&mut trees, &mut tail)?;
        Ok(Hulls { trees, tail })
    }

    /// The numbers of the entries in whose reaches the limits may hold, ascending. Each node of a tree and each entry
    /// that is looked at is a step. With k entries found of n that have one range each, with ends in order, and limits
    /// of one term at most that some values meet, these are at most 9 (2k + 2d + 1) d, where d is the count of binary
    /// digits of n, and as many more as entries stand in no tree.
    ///
    /// # Errors
    /// Out of memory.
    pub fn look_up<L: Ledger>(
        &self,
        alloc: Global,
        limits: &[Limit],
        steps: &mut Steps<L>,
    ) -> Result<Vec<u32>, NoMemory>
        ensures found { IfOk result (λ ids. AreFound limits.now self.now.entries ids.items) }
        ensures complete { IfOk result (λ ids. IsComplete limits.now self.now.entries ids.items) }
        ensures count { IfOk result (λ ids. length ids.items ≤ length (ids_in limits.now self.now.entries)) }
        ensures steps { AreAlong limits.now → AreSegments self.now.entries
            → steps.new ≤ steps.old + most_steps limits.now self.now }
        ensures forward { steps.old ≤ steps.new }
    {
        let probe = Probe::new(alloc, limits)?;
        let mut found = Vec::new(alloc);
        find_in(&self.trees, &probe, &mut found, steps)?;
        push_passing(&self.tail, &probe, &mut found, steps)?;
        found.sort_unstable();
        found.dedup();
        Ok(found)
    }
}

/// How many entries the trees have, as far as they can be counted.
fn count_in(trees: &[Tree]) -> usize
    ensures { result ≡ min (length (all_of trees.now)) (2 ^ 64 - 1) }
{
    let mut count: usize = 0;
    for i in 0..trees.len() {
        count = count.saturating_add(trees[i].len());
    }
    count
}

/// Adds the numbers of the entries of the trees in whose reaches the limits may hold.
///
/// # Errors
/// Out of memory.
fn find_in<L: Ledger>(
    trees: &[Tree],
    probe: &Probe,
    found: &mut Vec<u32>,
    steps: &mut Steps<L>,
) -> Result<(), NoMemory>
    ensures found { IfOk result (λ _. found.new.items ≡ found.old.items ++ ids_in probe.now (all_of trees.now)) }
    ensures steps { IsCostOfAll probe.now trees.now steps.old steps.new }
    ensures forward { steps.old ≤ steps.new }
{
    for i in 0..trees.len() {
        trees[i].find(probe, found, steps)?;
    }
    Ok(())
}

/// Adds copies of the entries of the trees.
///
/// # Errors
/// Out of memory.
fn copy_trees(trees: &[Tree], to: &mut Vec<ReachEntry>) -> Result<(), NoMemory>
    ensures { IfOk result (λ _. to.new.items ≡ to.old.items ++ all_of trees.now) }
{
    for i in 0..trees.len() {
        trees[i].copy_into(to)?;
    }
    Ok(())
}

/// Makes one tree of the list and of the last trees that aren't much larger, where the list is full.
///
/// # Errors
/// Out of memory; the entries stay then too, some of them in the list.
fn settle(trees: &mut Vec<Tree>, tail: &mut Vec<ReachEntry>) -> Result<(), NoMemory>
    ensures entries { IsPermutation (all_of trees.old.items ++ tail.old.items)
        (all_of trees.new.items ++ tail.new.items) }
    ensures room { OnOk result (length tail.new.items < 32) }
    ensures falling { AreFalling trees.old.items → AreFalling trees.new.items }
{
    if tail.len() < FULL_LIST {
        return Ok(());
    }
    let keep = kept(trees, tail.len());
    gather(trees, keep, tail)?;
    plant(trees, tail)
}

/// How many of the first trees stay as they are: those before the last that have less than twice as many entries as
/// stand behind them, where so many stand behind all trees.
fn kept(trees: &[Tree], mut behind: usize) -> usize
    ensures inside { result ≤ length trees.now }
    ensures room { IsRoomFor (length (all_of (drop result trees.now)) + behind) (take result trees.now) }
{
    let mut keep = trees.len();
    while 0 < keep && trees[keep - 1].len() / 2 < behind {
        keep = keep - 1;
        behind = behind.saturating_add(trees[keep].len());
    }
    keep
}

/// Makes the last trees give their entries to the list, until so many are left.
///
/// # Errors
/// Out of memory; some of the trees have given their entries then.
fn gather(trees: &mut Vec<Tree>, keep: usize, tail: &mut Vec<ReachEntry>) -> Result<(), NoMemory>
    ensures moved { all_of trees.new.items ++ tail.new.items ≡ all_of trees.old.items ++ tail.old.items }
    ensures first { trees.new.items ≡ take (length trees.new.items) trees.old.items }
    ensures gathered { OnOk result (length trees.new.items ≡ min keep (length trees.old.items)) }
{
    while keep < trees.len() {
        let last = trees.len() - 1;
        trees[last].give(tail)?;
        trees.truncate(last);
    }
    Ok(())
}

/// Makes a last tree of the list, if there are entries.
///
/// # Errors
/// Out of memory; the entries stay in the list then, in another order.
fn plant(trees: &mut Vec<Tree>, tail: &mut Vec<ReachEntry>) -> Result<(), NoMemory>
    ensures entries { IsPermutation (all_of trees.old.items ++ tail.old.items)
        (all_of trees.new.items ++ tail.new.items) }
    ensures planted { OnOk result (tail.new.items ≡ []) }
    ensures falling { AreFalling trees.old.items → IsRoomFor (length tail.old.items) trees.old.items
        → AreFalling trees.new.items }
{
    if tail.is_empty() {
        return Ok(());
    }
    trees.reserve(1)?;
    let tree = Tree::build(tail)?;
    trees.push_reserved(tree);
    Ok(())
}
