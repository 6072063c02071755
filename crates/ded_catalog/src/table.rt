//! The table of names.
ghost use Rattle.std.specs.Prelude.{◌≡◌, ◌==◌, ◌++◌, ◌∷◌, [], true, false, None, map, max, IfSome, OnOk, OnErr, IfOk};
ghost use Rattle.std.specs.Prelude.{IfErr};
ghost use Rattle.std.specs.List.{list_any};
ghost use Rattle.std.specs.Map.{lookup, remove_entry};
ghost use Rattle.std.specs.Option.{option_map, unwrap_or};
ghost use Rattle.std.specs.Str.{bytes_eq};
ghost use Rattle.ded_model.specs.declared.command.Refusal.TheVariants.{Memory};
ghost use Rattle.ded_model.specs.Form.{form, forms};
ghost use Rattle.ded_model.specs.Logic.{greatest, greatest_of};
ghost use Rattle.ded_sorts.specs.Checks.{known_form};
ghost use Rattle.ded_relation.specs.declared.relation.Relation.{Relation};
ghost use Rattle.ded_relation.specs.Hashing.{keyed};
ghost use Rattle.ded_catalog.specs.Changed.{ChangesRelation};
ghost use Rattle.ded_catalog.specs.Copies.{AreCopies};
ghost use Rattle.ded_catalog.specs.Mentions.{AreMentions};
ghost use Rattle.ded_catalog.specs.State.{known_with, relation_at, view_at, heading_at, level_at, stored_uses};
ghost use Rattle.ded_catalog.specs.State.{atom_level_in};
ghost use Rattle.ded_relation.specs.Tuples.{AreUpTo, refusal_of, IsSame, Pushes, Removes};
ghost use Rattle.ded_catalog.specs.Users.{HasMentions};

use crate::entries::{Entries, NameEntry};
use crate::mentions::mentioned;
use crate::stored::{Stored, View};
use crate::users::{count, discount};
use ded_model::command::Refusal;
use ded_model::formula::Formula;
use ded_model::memory::NoMemory;
use ded_model::name::{Heading, Name};
use ded_model::tuple::Tuple;
use ded_relation::{NameHashing, Relation};
use ded_sorts::Known;
use std::alloc::{AllocError, Global};
use std::marker::Model;

/// What stands under each name, in order of definition, with the number of the views that speak of the name. Contracts
/// see all but the numbers, and how names are hashed.
#[derive(Drop)]
pub(crate) struct Table {
    entries: Entries,
}

impl Model for Table {
    ghost use Rattle.std.specs.Prelude.{false};
    ghost use Rattle.std.specs.Coded.{codes};
    ghost use Rattle.ded_catalog.specs.contracts.stored.Stored as stored;
    ghost use Rattle.ded_catalog.specs.Users.{AreCounted, Defined, without_users};

    ghost Value = { Defined };

    ghost coded = { Prim.hlevel (stored.the_row.coded, codes) };

    ghost view = { λ t. record { entries = without_users t.entries.entries; hashing = t.entries.hashing } };

    ghost invariant = { λ t. AreCounted (λ n. false) t.entries.entries };
}

impl Table {
    /// A table without names, which are hashed with the keys.
    pub(crate) fn new(alloc: Global, keys: (u64, u64)) -> Table
        ensures empty { result.entries ≡ [] }
        ensures hashed { result.hashing ≡ keyed keys }
    {
        Table {
            entries: Entries::new(alloc, NameHashing::new(keys)),
        }
    }

    /// The allocator of what stands under names.
    pub(crate) fn alloc(&self) -> Global {
        self.entries.alloc
    }

    /// How names are hashed.
    pub(crate) fn hashing(&self) -> NameHashing
        ensures { result ≡ self.now.hashing }
    {
        self.entries.hashing
    }

    /// What stands under the name, none where it isn't defined.
    fn get(&self, name: &Name) -> Option<&Stored>
        ensures { option_map (λ s. s.now) result ≡ lookup (bytes_eq name.now) self.now.entries }
    {
        match self.entries.get(name) {
            Some(entry) => Some(&entry.stored),
            None => None,
        }
    }

    /// The names, in order of definition.
    ///
    /// # Errors
    /// Out of memory.
    pub(crate) fn names(&self, alloc: Global) -> Result<Vec<&Name>, NoMemory>
        ensures { IfOk result (λ ns. map (λ n. n.now) ns.items ≡ map (λ e. e.0) self.now.entries) }
    {
        self.entries.names(alloc)
    }

    /// A table of copies, in the same order.
    ///
    /// # Errors
    /// Out of memory.
    pub(crate) fn copy(&self) -> Result<Table, NoMemory>
        ensures copies { IfOk result (λ t. AreCopies self.now.entries t.entries) }
        ensures hashed { IfOk result (λ t. t.hashing ≡ self.now.hashing) }
    {
        Ok(Table {
            entries: self.entries.copy()?,
        })
    }
}

/// Puts what stands under a new name at the end. No view speaks of the name yet, nor does what stands under it.
///
/// # Errors
/// Out of memory; nothing is changed then.
pub(crate) fn add(table: &mut Table, name: Name, stored: Stored) -> Result<(), NoMemory>
    requires new { lookup (bytes_eq name) table.old.entries ≡ None }
    requires unused { list_any (stored_uses name) (map (λ e. e.1) table.old.entries) ≡ false }
    requires own { stored_uses name stored ≡ false }
    requires mentions { HasMentions stored }
    ensures ok { OnOk result (table.new.entries ≡ table.old.entries ++ (name, stored) ∷ []) }
    ensures err { OnErr result (table.new.entries ≡ table.old.entries) }
    ensures hashed { table.new.hashing ≡ table.old.hashing }
{
    count(&mut table.entries, &stored);
    match table.entries.push(name, NameEntry { stored, users: 0 }) {
        Ok(()) => Ok(()),
        Err(entry) => {
            discount(&mut table.entries, entry.stored);
            Err(AllocError)
        }
    }
}

/// The relation of the name, none where it is no relation.
pub(crate) fn relation_of<'a>(table: &'a Table, name: &Name) -> Option<&'a Relation>
    ensures { option_map (λ r. r.now) result ≡ relation_at (lookup (bytes_eq name.now) table.now.entries) }
{
    match table.get(name) {
        Some(Stored::Relation(relation)) => Some(relation.get()),
        _ => None,
    }
}

/// What is known of the name, none where it isn't defined.
pub(crate) fn known_of<'a>(table: &'a Table, name: &Name) -> Option<Known<'a>>
    ensures { known_form result ≡ known_with (lookup (bytes_eq name.now) table.now.entries) None }
{
    match table.get(name) {
        Some(Stored::Relation(relation)) => Some(Known::Relation(relation.get().heading())),
        Some(Stored::View(view)) => Some(Known::View(&view.heading, view.level)),
        None => None,
    }
}

/// The heading of the name, none where it isn't defined.
pub(crate) fn heading_of<'a>(table: &'a Table, name: &Name) -> Option<&'a Heading>
    ensures { option_map (λ h. h.now) result ≡ heading_at (lookup (bytes_eq name.now) table.now.entries) }
{
    match table.get(name) {
        Some(Stored::Relation(relation)) => Some(relation.get().heading()),
        Some(Stored::View(view)) => Some(&view.heading),
        None => None,
    }
}

/// The view of the name, none where it is no view.
pub(crate) fn view_of<'a>(table: &'a Table, name: &Name) -> Option<&'a View>
    ensures { option_map (λ v. v.now) result ≡ view_at (lookup (bytes_eq name.now) table.now.entries) }
{
    match table.get(name) {
        Some(Stored::View(view)) => Some(view),
        _ => None,
    }
}

/// Inserts a tuple into the relation of the name, and gives the tuple's number.
///
/// # Errors
/// `Full` or `Spent` as [`Relation::refusal`](ded_relation::Relation::refusal) says, otherwise out of memory. The
/// relation stays as it is then.
pub(crate) fn insert_into(
    table: &mut Table,
    name: &Name,
    limit: u32,
    tuple: Tuple,
) -> Result<u32, Refusal>
    requires { ChangesRelation table.old.entries table.old.entries name.now
        (λ old new. AreUpTo old.inserts old.tuples.entries) }
    ensures ok { IfOk result (λ k. ChangesRelation table.old.entries table.new.entries name.now
        (λ old new. Pushes old new tuple k × (refusal_of limit old ≡ None))) }
    ensures err { IfErr result (λ r. ChangesRelation table.old.entries table.new.entries name.now
        (λ old new. IsSame old new × (r ≡ unwrap_or (refusal_of limit old) Memory))) }
    ensures hashed { table.new.hashing ≡ table.old.hashing }
{
    table.entries.insert(name, limit, tuple)
}

/// Deletes the tuple of the number from the relation of the name.
///
/// # Errors
/// Out of memory; nothing is changed then.
pub(crate) fn delete_from(table: &mut Table, name: &Name, number: u64) -> Result<(), NoMemory>
    requires { ChangesRelation table.old.entries table.old.entries name.now
        (λ old new. AreUpTo old.inserts old.tuples.entries
        × (list_any (λ t. t.0 == number) old.tuples.entries ≡ true)) }
    ensures ok { IfOk result (λ _. ChangesRelation table.old.entries table.new.entries name.now
        (λ old new. Removes old new number)) }
    ensures err { IfErr result (λ _. ChangesRelation table.old.entries table.new.entries name.now
        (λ old new. IsSame old new)) }
    ensures hashed { table.new.hashing ≡ table.old.hashing }
{
    table.entries.delete(name, number)
}

/// Takes out what stands under the name. The others keep their order.
pub(crate) fn take_out(table: &mut Table, name: &Name)
    requires { IfSome (lookup (bytes_eq name.now) table.old.entries) HasMentions }
    ensures entries { table.new.entries ≡ remove_entry (bytes_eq name.now) table.old.entries }
    ensures hashed { table.new.hashing ≡ table.old.hashing }
{
    if let Some(entry) = table.entries.remove(name) {
        discount(&mut table.entries, entry.stored);
    }
}

/// Whether the formula of a view speaks of the name. None does where the name isn't defined.
pub(crate) fn some_uses(table: &Table, name: &Name) -> bool
    requires { lookup (bytes_eq name.now) table.now.entries ≡ None
        → list_any (stored_uses name.now) (map (λ e. e.1) table.now.entries) ≡ false }
    ensures { result ≡ list_any (stored_uses name.now) (map (λ e. e.1) table.now.entries) }
{
    match table.entries.get(name) {
        Some(entry) => entry.users > 0,
        None => false,
    }
}

/// The greatest level of a name that the formula speaks of, 0 where it speaks of none, and these names, each once.
///
/// # Errors
/// Out of memory.
pub(crate) fn spoken(table: &Table, formula: &Formula) -> Result<(u32, Vec<Name>), NoMemory>
    ensures level { IfOk result (λ s. s.0 ≡ greatest (atom_level_in table.now.entries) (form formula.now)) }
    ensures mentions { IfOk result (λ s. AreMentions s.1.items (form formula.now)) }
{
    let level = level_in(table, formula)?;
    let names = mentioned(table.alloc(), table.hashing(), formula)?;
    Ok((level, names))
}

/// The greatest level of a name that the formula speaks of, 0 where it speaks of none.
///
/// # Errors
/// Out of memory.
#[cycle(level)]
fn level_in(table: &Table, formula: &Formula) -> Result<u32, NoMemory>
    ensures { IfOk result (λ n. n ≡ greatest (atom_level_in table.now.entries) (form formula.now)) }
{
    match formula {
        Formula::True | Formula::False | Formula::Compare(_, _, _) => Ok(0),
        Formula::Member(name, _) => Ok(level_of(table, &name.base_name()?)),
        Formula::Not(part) | Formula::Exists(_, part) | Formula::Forall(_, part) => {
            level_in(table, part)
        }
        Formula::And(parts) | Formula::Or(parts) => greatest_level(table, parts),
        Formula::Implies(left, right) => {
            Ok(larger(level_in(table, left)?, level_in(table, right)?))
        }
    }
}

/// The greatest level of a name that one of the formulas speaks of, 0 where they speak of none.
#[cycle(level)]
fn greatest_level(table: &Table, parts: &Vec<Formula>) -> Result<u32, NoMemory>
    ensures { IfOk result (λ n. n ≡ greatest_of (atom_level_in table.now.entries) (forms parts.now.items)) }
{
    let mut level = 0;
    for part in parts {
        level = larger(level, level_in(table, part)?);
    }
    Ok(level)
}

/// The larger of two numbers.
fn larger(a: u32, b: u32) -> u32
    ensures { result ≡ max a b }
{
    if a < b { b } else { a }
}

/// The level of a name: 0 for one that is no view.
fn level_of(table: &Table, name: &Name) -> u32
    ensures { result ≡ level_at (lookup (bytes_eq name.now) table.now.entries) }
{
    match view_of(table, name) {
        Some(view) => view.level,
        None => 0,
    }
}
