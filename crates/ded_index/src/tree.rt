//! A search tree in a sorted list. The node of a range is its middle, and the halves beside it are below the node.
ghost use Rattle.std.specs.Prelude.{◌≡◌, ◌+◌, ◌<◌, ◌++◌, ℕ, true, [], ◌∷◌, length, slice_index_or, IfOk, MatchOption};
ghost use Rattle.std.specs.List.Sorted.{IsPermutation};
ghost use Rattle.ded_model.specs.declared.bound.Bound.{Bound};
ghost use Rattle.ded_model.specs.Bound.{upper};
ghost use Rattle.ded_box.specs.Intervals.{has_value, wider};
ghost use Rattle.ded_box.specs.Boxes.{AreIntervals};
ghost use Rattle.ded_index.specs.Entries.{first_of, high, ids_in};
ghost use Rattle.ded_index.specs.Trees.{entries_of, IsGreatest, AreEnds, AreFull, AreSound, IsTree};
ghost use Rattle.ded_index.specs.Costs.{IsCost};

use crate::entry::{BoxEntry, first_interval, is_full, order};
use ded_box::{BoundBox, Side, may_meet, meets, wider};
use ded_model::bound::Bound;
use ded_model::memory::NoMemory;
use ded_model::steps::Steps;
use std::sync::ledger::Ledger;

/// An entry whose first interval isn't empty, and the greatest high end in the range of which it is the middle.
#[derive(Drop)]
pub(crate) struct BoxNode {
    pub entry: BoxEntry,
    pub end: Bound,
}

/// Makes a search tree of nodes, whatever their order and their ends.
pub(crate) fn arrange(nodes: &mut Vec<BoxNode>)
    requires full { AreFull (entries_of nodes.old.items) }
    requires sound { AreSound (entries_of nodes.old.items) }
    ensures tree { IsTree nodes.new.items }
    ensures entries { IsPermutation (entries_of nodes.old.items) (entries_of nodes.new.items) }
{
    nodes.sort_unstable_by(|a, b| order(&a.entry, &b.entry));
    let _ = fill(nodes);
}

/// Gives each node of the range its end, and gives the greatest one. The entries stay.
pub(crate) fn fill(nodes: &mut [BoxNode]) -> Option<Bound>
    requires sound { AreSound (entries_of nodes.old) }
    ensures entries { entries_of nodes.new ≡ entries_of nodes.old }
    ensures ends { (h : ℕ) → AreEnds h nodes.new }
    ensures greatest { MatchOption result (length (entries_of nodes.old) ≡ 0)
        (λ b. IsGreatest (entries_of nodes.old) b) }
{
    if nodes.is_empty() {
        return None;
    }
    let middle = nodes.len() / 2;
    let left = fill(&mut nodes[..middle]);
    let right = fill(&mut nodes[middle + 1..]);
    Some(close(&mut nodes[middle], left, right))
}

/// Gives a node its end, from those of the ranges beside it.
fn close(node: &mut BoxNode, left: Option<Bound>, right: Option<Bound>) -> Bound
    ensures entry { node.new.entry ≡ node.old.entry }
    ensures end { node.new.end ≡ result }
    ensures latest { (first : Bound) × MatchOption left (first ≡ high node.old.entry) (λ b. first
        ≡ wider upper (high node.old.entry) b) × MatchOption right (result ≡ first) (λ b. result
        ≡ wider upper first b) }
{
    let own = first_interval(&node.entry.bounds).1;
    node.end = later(later(own, left), right);
    node.end
}

/// The bound, or the other where that is later.
fn later(bound: Bound, other: Option<Bound>) -> Bound
    ensures { MatchOption other (result ≡ bound) (λ b. result ≡ wider upper bound b) }
{
    match other {
        None => bound,
        Some(other) => wider(Side::Upper, bound, other),
    }
}

/// Adds the numbers of the entries whose boxes meet the window, in order. A window whose first interval is empty takes
/// no step.
///
/// # Errors
/// Out of memory.
pub(crate) fn visit_all<L: Ledger>(
    nodes: &[BoxNode],
    window: &BoundBox,
    found: &mut Vec<u32>,
    steps: &mut Steps<L>,
) -> Result<(), NoMemory>
    requires { IsTree nodes.now }
    ensures found { IfOk result (λ _. found.new.items ≡ found.old.items ++ ids_in window.now (entries_of nodes.now)) }
    ensures steps { IsCost window.now (entries_of nodes.now) steps.old steps.new }
    ensures sound { AreIntervals window.now }
{
    if is_full(window) {
        visit(nodes, window, found, steps)
    } else {
        Ok(())
    }
}

/// Adds the numbers of the entries whose boxes meet the window, in order. The first interval of the window isn't empty.
/// A range in which all intervals end before the window begins is passed over, and so is what begins after the window
/// ends.
///
/// # Errors
/// Out of memory.
fn visit<L: Ledger>(
    nodes: &[BoxNode],
    window: &BoundBox,
    found: &mut Vec<u32>,
    steps: &mut Steps<L>,
) -> Result<(), NoMemory>
    requires tree { IsTree nodes.now }
    requires full { has_value (first_of window.now) ≡ true }
    ensures found { IfOk result (λ _. found.new.items ≡ found.old.items ++ ids_in window.now (entries_of nodes.now)) }
    ensures steps { IsCost window.now (entries_of nodes.now) steps.old steps.new }
{
    if nodes.is_empty() {
        return Ok(());
    }
    let middle = nodes.len() / 2;
    let node = look_at(nodes, middle, steps);
    let (low, high) = first_interval(window);
    if !may_meet(&low, &node.end) {
        return Ok(());
    }
    visit(&nodes[..middle], window, found, steps)?;
    if !may_meet(&first_interval(&node.entry.bounds).0, &high) {
        return Ok(());
    }
    push_meeting(&node.entry, window, found)?;
    visit(&nodes[middle + 1..], window, found, steps)
}

/// The node at a place, which is one step.
fn look_at<'a, L: Ledger>(nodes: &'a [BoxNode], place: usize, steps: &mut Steps<L>) -> &'a BoxNode
    requires { place < length nodes.now }
    ensures node { result.now ≡ slice_index_or nodes.now place result.now }
    ensures steps { steps.new ≡ steps.old + 1 }
{
    steps.tick();
    &nodes[place]
}

/// Adds the entry's number where its box meets the window.
fn push_meeting(entry: &BoxEntry, window: &BoundBox, found: &mut Vec<u32>) -> Result<(), NoMemory>
    ensures { IfOk result (λ _. found.new.items ≡ found.old.items ++ ids_in window.now (entry.now ∷ [])) }
{
    if meets(&entry.bounds, window) {
        found.push(entry.id)?;
    }
    Ok(())
}
