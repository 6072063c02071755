//! The index.
ghost use Rattle.std.specs.Prelude.{◌≡◌, ◌+◌, ◌<◌, ◌≤◌, ◌^◌, ◌∷◌, ◌++◌, ◌||◌, nat_eq, length, IfOk, OnErr};
ghost use Rattle.std.specs.List.{list_any};
ghost use Rattle.std.specs.List.Sorted.{IsPermutation};
ghost use Rattle.ded_index.specs.Entries.{numbered, has_id, without, AreFound, most_steps};
ghost use Rattle.ded_index.specs.Trees.{entries_of, AreFull, AreSound, AreApart};

use crate::entry::{BoxEntry, is_full};
use crate::tree::{BoxNode, arrange, fill, visit_all};
use ded_box::BoundBox;
use ded_model::bound::Bound;
use ded_model::memory::NoMemory;
use ded_model::steps::Steps;
use std::alloc::Global;
use std::marker::{Brand, Model};
use std::sync::ledger::{Blank, Ledger};

/// Boxes under numbers. Contracts see the list of the entries.
///
/// The entries whose first interval isn't empty are a search tree, the others stand beside it.
#[derive(Drop)]
pub struct BoxIndex {
    tree: Vec<BoxNode>,
    apart: Vec<BoxEntry>,
}

impl Model for BoxIndex {
    ghost use Rattle.std.specs.Prelude.{List, ◌++◌};
    ghost use Rattle.ded_index.specs.declared.entry.BoxEntry.{BoxEntry};
    ghost use Rattle.ded_index.specs.Trees.{entries_of, AreApart, IsIndex};

    ghost Value = { List BoxEntry };

    ghost view = { λ x. entries_of x.tree.items ++ x.apart.items };

    ghost invariant = { λ x. IsIndex x.tree.items x.apart.items };
}

impl BoxIndex {
    /// The index of the boxes under their positions. All boxes are of one length of at least 1, if there are any.
    ///
    /// # Errors
    /// Out of memory.
    pub fn build(alloc: Global, boxes: &[BoundBox]) -> Result<BoxIndex, NoMemory>
        requires { length boxes.now < 2 ^ 32 }
        ensures { IfOk result (λ x. IsPermutation (numbered 0 boxes.now) x) }
    {
        let mut tree = Vec::new(alloc);
        let mut apart = Vec::new(alloc);
        for i in 0..boxes.len() {
            let entry = BoxEntry {
                id: i as u32,
                bounds: boxes[i].copy()?,
            };
            add(&mut tree, &mut apart, entry)?;
        }
        arrange(&mut tree);
        Ok(BoxIndex { tree, apart })
    }

    /// Adds an entry.
    ///
    /// # Errors
    /// Out of memory; the index is as it was then.
    pub fn insert(&mut self, id: u32, bounds: &BoundBox) -> Result<(), NoMemory>
        ensures inserted { IfOk result (λ _. IsPermutation
            (record { id = id; bounds = bounds.now } ∷ self.old) self.new) }
        ensures unchanged { OnErr result (self.new ≡ self.old) }
    {
        let entry = BoxEntry {
            id,
            bounds: bounds.copy()?,
        };
        add(&mut self.tree, &mut self.apart, entry)?;
        arrange(&mut self.tree);
        Ok(())
    }

    /// Takes the entry with the number out, and tells whether it was there. All others stay. It does not allocate.
    pub fn remove(&mut self, id: u32) -> bool
        ensures value { result ≡ has_id id self.old }
        ensures removed { self.new ≡ without id self.old }
    {
        let there = has_number(&self.tree, &self.apart, id);
        self.tree.retain(|node| node.entry.id != id);
        self.apart.retain(|entry| entry.id != id);
        let _ = fill(&mut self.tree);
        there
    }

    /// The numbers of the entries whose boxes share values with the window, ascending.
    ///
    /// # Errors
    /// Out of memory.
    pub fn look_up<L: Ledger>(
        &self,
        alloc: Global,
        window: &BoundBox,
        steps: &mut Steps<L>,
    ) -> Result<Vec<u32>, NoMemory>
        ensures found { IfOk result (λ ids. AreFound window.now self.now ids.items) }
        ensures steps { steps.new ≤ steps.old + most_steps window.now self.now }
    {
        let mut found = Vec::new(alloc);
        visit_all(&self.tree, window, &mut found, steps)?;
        found.sort_unstable();
        found.dedup();
        Ok(found)
    }

    /// The numbers of the entries whose boxes share values with the window, ascending, without counting steps.
    ///
    /// # Errors
    /// Out of memory.
    pub fn find(&self, alloc: Global, window: &BoundBox) -> Result<Vec<u32>, NoMemory>
        ensures { IfOk result (λ ids. AreFound window.now self.now ids.items) }
    {
        self.find_over::<Brand>(alloc, window, Blank::new(1))
    }

    /// The numbers of the entries whose boxes share values with the window, ascending, with the steps counted on a new
    /// ledger.
    fn find_over<L: Ledger>(
        &self,
        alloc: Global,
        window: &BoundBox,
        blank: Blank,
    ) -> Result<Vec<u32>, NoMemory>
        requires name { blank.name ≡ L.name }
        requires parts { blank.parts ≡ L.parts }
        requires some { 0 < L.parts }
        ensures { IfOk result (λ ids. AreFound window.now self.now ids.items) }
    {
        let mut steps = Steps::<L>::new(blank);
        self.look_up(alloc, window, &mut steps)
    }
}

/// Adds an entry to the nodes, or beside them where its first interval is empty.
///
/// # Errors
/// Out of memory; nothing is added then.
fn add(tree: &mut Vec<BoxNode>, apart: &mut Vec<BoxEntry>, entry: BoxEntry) -> Result<(), NoMemory>
    requires full { AreFull (entries_of tree.old.items) }
    requires sound { AreSound (entries_of tree.old.items) }
    requires apart { AreApart apart.old.items }
    ensures full { AreFull (entries_of tree.new.items) }
    ensures sound { AreSound (entries_of tree.new.items) }
    ensures apart { AreApart apart.new.items }
    ensures added { IfOk result (λ _. IsPermutation (entry ∷ (entries_of tree.old.items ++ apart.old.items))
        (entries_of tree.new.items ++ apart.new.items)) }
    ensures tree_unchanged { OnErr result (tree.new.items ≡ tree.old.items) }
    ensures apart_unchanged { OnErr result (apart.new.items ≡ apart.old.items) }
{
    if is_full(&entry.bounds) {
        let node = BoxNode {
            entry,
            end: Bound::Infinite,
        };
        tree.push(node)?;
    } else {
        apart.push(entry)?;
    }
    Ok(())
}

/// Whether some entry, among the nodes or beside them, has the number.
fn has_number(tree: &[BoxNode], apart: &[BoxEntry], id: u32) -> bool
    ensures { result ≡ (list_any (λ n. nat_eq n.entry.id id) tree.now || list_any (λ e. nat_eq e.id id) apart.now) }
{
    has_node(tree, id) || has_entry(apart, id)
}

/// Whether the entry of some node has the number.
fn has_node(tree: &[BoxNode], id: u32) -> bool
    ensures { result ≡ list_any (λ n. nat_eq n.entry.id id) tree.now }
{
    tree.iter().any(|node| node.entry.id == id)
}

/// Whether some entry beside the nodes has the number.
fn has_entry(apart: &[BoxEntry], id: u32) -> bool
    ensures { result ≡ list_any (λ e. nat_eq e.id id) apart.now }
{
    apart.iter().any(|entry| entry.id == id)
}
