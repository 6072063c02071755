//! Trees of hulls over a list of entries.
//!
//! The nodes of a tree stand in a list, and behind each node those below it. A node with none below it owns a few
//! entries. All entries stand in another list in the order of their nodes, so those under a node stand side by side. A
//! look-up is one pass over both lists, in which a node where the limits cannot hold is passed over with all that is
//! below it.
//!
//! Where each reach has one range, the two halves of a list are those with earlier and with later middles. A node whose
//! hull passes then has an entry that is found below it, but for one node on each level at most. That bounds how many
//! nodes are looked at.
//!
//! A tree never changes. It is built over a list of entries, which are put in its order where they stand, and gives the
//! list back for a larger tree.
ghost use Rattle.std.specs.Prelude.{◌≡◌, ◌<◌, ◌≤◌, ◌+◌, ◌*◌, ◌%◌, ◌^◌, ◌++◌, ◌∷◌, [], ℕ, List, length, IfOk, OnOk};
ghost use Rattle.std.specs.Prelude.{OnErr};
ghost use Rattle.std.specs.List.Sorted.{IsPermutation};
ghost use Rattle.ded_hull.specs.declared.entry.ReachEntry.{ReachEntry};
ghost use Rattle.ded_hull.specs.Entries.{ids_in, Covers};
ghost use Rattle.ded_hull.specs.Segments.{AreSegments, InOrder};
ghost use Rattle.ded_hull.specs.Trees.{IsTree, IsOver, IsHalved, AreNarrow, HullsJoined, IsStep, IsCost, looked_at};

use crate::entry::{ReachEntry, arrange, copy_all, hull_of, push_passing};
use ded_model::memory::NoMemory;
use ded_model::steps::Steps;
use ded_ranges::{Probe, Reach};
use std::alloc::Global;
use std::marker::Model;
use std::mem;
use std::sync::ledger::Ledger;

/// How many entries a node without others below it has at most.
const LEAF: usize = 8;

/// A hull of the entries under a node, how many of the nodes behind it stand below it, and how many entries are under
/// it.
#[derive(Drop)]
pub(crate) struct HullNode {
    pub hull: Reach,
    pub below: usize,
    pub count: usize,
}

/// A tree. Contracts see the list of its entries.
#[derive(Drop)]
pub(crate) struct Tree {
    nodes: Vec<HullNode>,
    entries: Vec<ReachEntry>,
}

impl Model for Tree {
    ghost use Rattle.std.specs.Prelude.{List};
    ghost use Rattle.ded_hull.specs.declared.entry.ReachEntry.{ReachEntry};
    ghost use Rattle.ded_hull.specs.Trees.{IsTree, IsBalanced};

    ghost Value = { List ReachEntry };

    ghost view = { λ t. t.entries.items };

    ghost invariant = { λ t. IsTree t.nodes.items t.entries.items × IsBalanced t.nodes.items t.entries.items };
}

impl Tree {
    /// The tree of the entries, which are moved out of the list.
    ///
    /// # Errors
    /// Out of memory; the entries stay in the list then, in another order.
    pub(crate) fn build(entries: &mut Vec<ReachEntry>) -> Result<Tree, NoMemory>
        ensures built { IfOk result (λ t. IsPermutation entries.old.items t) }
        ensures moved { OnOk result (entries.new.items ≡ []) }
        ensures kept { OnErr result (IsPermutation entries.old.items entries.new.items) }
    {
        let alloc = *entries.allocator();
        let nodes = build(alloc, entries.as_mut_slice(), 0)?;
        Ok(Tree {
            nodes,
            entries: mem::replace(entries, Vec::new(alloc)),
        })
    }

    /// How many entries there are.
    pub(crate) fn len(&self) -> usize
        ensures { result ≡ length self.now }
    {
        self.entries.len()
    }

    /// Adds the numbers of the entries in whose reaches the limits may hold. Each node and each entry that is looked at
    /// is a step.
    ///
    /// # Errors
    /// Out of memory.
    pub(crate) fn find<L: Ledger>(
        &self,
        probe: &Probe,
        found: &mut Vec<u32>,
        steps: &mut Steps<L>,
    ) -> Result<(), NoMemory>
        ensures found { IfOk result (λ _. found.new.items ≡ found.old.items ++ ids_in probe.now self.now) }
        ensures steps { IsCost probe.now self.now steps.old steps.new }
        ensures forward { steps.old ≤ steps.new }
    {
        visit_all(&self.nodes, &self.entries, probe, found, steps)
    }

    /// Adds copies of the entries.
    ///
    /// # Errors
    /// Out of memory.
    pub(crate) fn copy_into(&self, to: &mut Vec<ReachEntry>) -> Result<(), NoMemory>
        ensures { IfOk result (λ _. to.new.items ≡ to.old.items ++ self.now) }
    {
        copy_all(&self.entries, to)
    }

    /// Gives its entries to the list, before those that stand there, and has none left. The list takes over the memory
    /// of the tree's.
    ///
    /// # Errors
    /// Out of memory; nothing has changed then.
    pub(crate) fn give(&mut self, list: &mut Vec<ReachEntry>) -> Result<(), NoMemory>
        ensures given { OnOk result (list.new.items ≡ self.old ++ list.old.items) }
        ensures left { OnOk result (self.new ≡ []) }
        ensures unchanged { OnErr result (self.new ≡ self.old) }
        ensures list { OnErr result (list.new.items ≡ list.old.items) }
    {
        self.entries.reserve_exact(list.len())?;
        self.entries.append(list)?;
        mem::swap(&mut self.entries, list);
        self.nodes.clear();
        Ok(())
    }
}

/// The nodes of a tree of the entries, which are put in its order: they are halved until few are left. The level counts
/// how many times they have been halved already.
///
/// # Errors
/// Out of memory; the entries are in another order then.
pub(crate) fn build(
    alloc: Global,
    entries: &mut [ReachEntry],
    level: u32,
) -> Result<Vec<HullNode>, NoMemory>
    ensures tree { IfOk result (λ ns. IsTree ns.items entries.new) }
    ensures over { IfOk result (λ ns. IsOver ns.items entries.new) }
    ensures entries { IsPermutation entries.old entries.new }
    ensures halved { IfOk result (λ ns. AreSegments entries.old → (0 < level % 2 → InOrder entries.old)
        → 0 < length entries.old → (h : ℕ) → length entries.old ≤ 2 ^ h → IsHalved h ns.items entries.new) }
{
    let count = entries.len();
    if count <= LEAF {
        let hull = hull_of(alloc, entries)?;
        return one(alloc, hull, count);
    }
    arrange(entries, level);
    let (front, back) = entries.split_at_mut(count / 2);
    let first = build(alloc, front, level.wrapping_add(1))?;
    let second = build(alloc, back, level.wrapping_add(1))?;
    let hull = hull_over(alloc, &first, &second)?;
    joined(hull, count, first, second)
}

/// A hull of what the hulls of the first nodes contain.
///
/// # Errors
/// Out of memory.
fn hull_over(alloc: Global, first: &[HullNode], second: &[HullNode]) -> Result<Reach, NoMemory>
    ensures covers { IfOk result (λ h. (xs ys : List ReachEntry) → IsOver first.now xs → IsOver second.now ys
        → Covers h (xs ++ ys)) }
    ensures value { IfOk result (λ h. HullsJoined first.now second.now h) }
{
    match (first.first(), second.first()) {
        (Some(first), Some(second)) => {
            let mut hull = first.hull.copy()?;
            hull.widen(&second.hull);
            Ok(hull)
        }
        _ => Ok(Reach::new(alloc)),
    }
}

/// A node with none below it.
///
/// # Errors
/// Out of memory.
fn one(alloc: Global, hull: Reach, count: usize) -> Result<Vec<HullNode>, NoMemory>
    ensures { IfOk result (λ ns. ns.items ≡ record { hull = hull; below = 0; count = count } ∷ []) }
{
    let mut nodes = Vec::with_capacity(alloc, 1)?;
    nodes.push(HullNode {
        hull,
        below: 0,
        count,
    })?;
    Ok(nodes)
}

/// A node before those of two trees, which stand below it.
///
/// # Errors
/// Out of memory.
fn joined(
    hull: Reach,
    count: usize,
    first: Vec<HullNode>,
    mut second: Vec<HullNode>,
) -> Result<Vec<HullNode>, NoMemory>
    ensures { IfOk result (λ ns. ns.items ≡ record {
      hull = hull;
      below = length first.items
          + length second.items;
      count = count;
    } ∷ (first.items ++ second.items)) }
{
    let below = first.len() + second.len();
    let mut nodes = first;
    nodes.reserve_exact(second.len() + 1)?;
    nodes.insert(0, HullNode { hull, below, count })?;
    nodes.append(&mut second)?;
    Ok(nodes)
}

/// Adds the numbers of the entries of a tree in whose reaches the limits may hold. Each node and each entry that is
/// looked at is a step.
///
/// # Errors
/// Out of memory.
pub(crate) fn visit_all<L: Ledger>(
    nodes: &[HullNode],
    entries: &[ReachEntry],
    probe: &Probe,
    found: &mut Vec<u32>,
    steps: &mut Steps<L>,
) -> Result<(), NoMemory>
    requires { IsTree nodes.now entries.now }
    ensures found { IfOk result (λ _. found.new.items ≡ found.old.items ++ ids_in probe.now entries.now) }
    ensures steps { AreNarrow nodes.now → steps.new ≤ steps.old + 9 * looked_at probe.now 0 nodes.now }
    ensures forward { steps.old ≤ steps.new }
{
    let mut next = nodes;
    let mut rest = entries;
    while let Some((node, behind)) = next.split_first() {
        steps.tick();
        (next, rest) = visit(node, behind, rest, probe, found, steps)?;
    }
    Ok(())
}

/// Adds the numbers of a node's own entries in whose reaches the limits may hold, and gives the nodes that come next
/// with the entries from their first on. Behind the node stand the others of the tree, and its entries come first. Each
/// entry that is looked at is a step.
///
/// # Errors
/// Out of memory.
fn visit<'a, L: Ledger>(
    node: &HullNode,
    behind: &'a [HullNode],
    entries: &'a [ReachEntry],
    probe: &Probe,
    found: &mut Vec<u32>,
    steps: &mut Steps<L>,
) -> Result<(&'a [HullNode], &'a [ReachEntry]), NoMemory>
    requires { IsTree (node.now ∷ behind.now) entries.now }
    ensures next { IfOk result (λ next. IsStep probe.now node.now behind.now entries.now next.0.now next.1.now
        found.old.items found.new.items) }
    ensures steps { steps.new ≤ steps.old + 8 }
    ensures forward { steps.old ≤ steps.new }
{
    if !probe.may_pass(&node.hull) {
        return Ok((&behind[node.below..], &entries[node.count..]));
    }
    if node.below > 0 {
        return Ok((behind, entries));
    }
    push_passing(&entries[..node.count], probe, found, steps)?;
    Ok((behind, &entries[node.count..]))
}
