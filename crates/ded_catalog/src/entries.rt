//! What stands under each name, found by the name's hash, in order of definition.
ghost use Rattle.std.specs.Prelude.{◌≡◌, ◌==◌, ◌-◌, ◌<◌, ◌^◌, ◌++◌, ◌∷◌, [], true, None, IfSome, IfOk, IfErr, OnOk};
ghost use Rattle.std.specs.Prelude.{OnErr, length, map};
ghost use Rattle.std.specs.List.{list_any};
ghost use Rattle.std.specs.Map.{lookup, remove_entry};
ghost use Rattle.std.specs.Option.{option_map, unwrap_or};
ghost use Rattle.std.specs.Str.{bytes_eq};
ghost use Rattle.ded_model.specs.declared.command.Refusal.TheVariants.{Memory};
ghost use Rattle.ded_relation.specs.Tuples.{AreUpTo, refusal_of, IsSame, Pushes, Removes};
ghost use Rattle.ded_catalog.specs.Users.{Alters, AreCopied, Raises, users_at};

use crate::stored::Stored;
use ded_model::command::Refusal;
use ded_model::memory::NoMemory;
use ded_model::name::Name;
use ded_model::tuple::Tuple;
use ded_relation::NameHashing;
use lru::LruCache;
use std::alloc::{AllocError, Global};
use std::marker::Model;

/// What stands under a name, and how many views speak of the name.
#[derive(Drop)]
pub(crate) struct NameEntry {
    pub(crate) stored: Stored,
    pub(crate) users: usize,
}

/// Entries that are linked in order of definition.
type Linked = LruCache<Name, NameEntry, NameHashing>;

/// What stands under each name, in order of definition. Memory is allocated for the first name. Whatever is done with
/// one name takes the same time, however many names there are.
#[derive(Drop)]
pub(crate) struct Entries {
    pub(crate) alloc: Global,
    pub(crate) hashing: NameHashing,
    linked: Option<Linked>,
}

impl Model for Entries {
    ghost use Rattle.std.specs.Prelude.{◌≡◌, ◌-◌, ◌^◌, [], IfSome};
    ghost use Rattle.std.specs.Coded.{codes};
    ghost use Rattle.std.specs.Option.{option_map_or};
    ghost use Rattle.ded_catalog.specs.contracts.entries.NameEntry as entry;
    ghost use Rattle.ded_catalog.specs.Users.{Counted};

    ghost Value = { Counted };

    ghost coded = { Prim.hlevel (entry.the_row.coded, codes) };

    ghost view = { λ t. record { entries = option_map_or (λ c. c.entries) t.linked []; hashing = t.hashing } };

    ghost invariant = { λ t. IfSome t.linked (λ c. c.cap ≡ 2 ^ 64 - 1) };
}

impl Entries {
    /// No entries.
    pub(crate) fn new(alloc: Global, hashing: NameHashing) -> Entries
        ensures empty { result.entries ≡ [] }
        ensures hashed { result.hashing ≡ hashing }
    {
        Entries {
            alloc,
            hashing,
            linked: None,
        }
    }

    /// How many entries there are.
    pub(crate) fn len(&self) -> usize
        ensures len { result ≡ length self.now.entries }
        ensures fits { result < 2 ^ 63 }
    {
        match &self.linked {
            Some(linked) => linked.len(),
            None => 0,
        }
    }

    /// The entry of the name, none where it isn't defined.
    pub(crate) fn get(&self, name: &Name) -> Option<&NameEntry>
        ensures { option_map (λ e. e.now) result ≡ lookup (bytes_eq name.now) self.now.entries }
    {
        match &self.linked {
            Some(linked) => linked.peek(name),
            None => None,
        }
    }

    /// Puts an entry under a new name at the end.
    ///
    /// # Errors
    /// The entry, where memory runs out; nothing is changed then.
    pub(crate) fn push(&mut self, name: Name, entry: NameEntry) -> Result<(), NameEntry>
        requires { lookup (bytes_eq name) self.old.entries ≡ None }
        ensures ok { OnOk result (self.new.entries ≡ self.old.entries ++ (name, entry) ∷ []) }
        ensures err { OnErr result (self.new.entries ≡ self.old.entries) }
        ensures back { IfErr result (λ e. e ≡ entry) }
        ensures hashed { self.new.hashing ≡ self.old.hashing }
    {
        if let Some(linked) = &mut self.linked {
            return push_into(linked, name, entry);
        }
        let linked = first(self.alloc, self.hashing, name, entry)?;
        self.linked = Some(linked);
        Ok(())
    }

    /// Takes out the entry of the name. The others keep their order.
    pub(crate) fn remove(&mut self, name: &Name) -> Option<NameEntry>
        ensures value { result ≡ lookup (bytes_eq name.now) self.old.entries }
        ensures entries { self.new.entries ≡ remove_entry (bytes_eq name.now) self.old.entries }
        ensures gone { lookup (bytes_eq name.now) self.new.entries ≡ None }
        ensures hashed { self.new.hashing ≡ self.old.hashing }
    {
        match &mut self.linked {
            Some(linked) => remove_from(linked, name),
            None => None,
        }
    }

    /// Counts one view more that speaks of the name, where that is defined.
    pub(crate) fn raise(&mut self, name: &Name)
        requires { IfSome (users_at name.now self.old.entries) (λ k. k < 2 ^ 64 - 1) }
        ensures raised { Raises (λ n. bytes_eq n name.now) self.old.entries self.new.entries }
        ensures hashed { self.new.hashing ≡ self.old.hashing }
    {
        if let Some(linked) = &mut self.linked {
            raise_in(linked, name);
        }
    }

    /// Counts one view less that speaks of the name, where that is defined.
    pub(crate) fn lower(&mut self, name: &Name)
        requires { IfSome (users_at name.now self.old.entries) (λ k. 0 < k) }
        ensures lowered { Raises (λ n. bytes_eq n name.now) self.new.entries self.old.entries }
        ensures hashed { self.new.hashing ≡ self.old.hashing }
    {
        if let Some(linked) = &mut self.linked {
            lower_in(linked, name);
        }
    }

    /// Inserts a tuple into the relation of the name, and gives the tuple's number.
    ///
    /// # Errors
    /// `Full` or `Spent` as [`Relation::refusal`](ded_relation::Relation::refusal) says, otherwise out of memory. The
    /// relation stays as it is then.
    pub(crate) fn insert(&mut self, name: &Name, limit: u32, tuple: Tuple) -> Result<u32, Refusal>
        requires { Alters self.old.entries self.old.entries name.now
            (λ old new. AreUpTo old.inserts old.tuples.entries) }
        ensures ok { IfOk result (λ k. Alters self.old.entries self.new.entries name.now
            (λ old new. Pushes old new tuple k × (refusal_of limit old ≡ None))) }
        ensures err { IfErr result (λ r. Alters self.old.entries self.new.entries name.now (λ old new. IsSame old new
            × (r ≡ unwrap_or (refusal_of limit old) Memory))) }
        ensures hashed { self.new.hashing ≡ self.old.hashing }
    {
        match &mut self.linked {
            Some(linked) => insert_in(linked, name, limit, tuple),
            None => unreachable!(),
        }
    }

    /// Deletes the tuple of the number from the relation of the name.
    ///
    /// # Errors
    /// Out of memory; nothing is changed then.
    pub(crate) fn delete(&mut self, name: &Name, number: u64) -> Result<(), NoMemory>
        requires { Alters self.old.entries self.old.entries name.now (λ old new. AreUpTo old.inserts old.tuples.entries
            × (list_any (λ t. t.0 == number) old.tuples.entries ≡ true)) }
        ensures ok { IfOk result (λ _. Alters self.old.entries self.new.entries name.now
            (λ old new. Removes old new number)) }
        ensures err { IfErr result (λ _. Alters self.old.entries self.new.entries name.now
            (λ old new. IsSame old new)) }
        ensures hashed { self.new.hashing ≡ self.old.hashing }
    {
        match &mut self.linked {
            Some(linked) => delete_in(linked, name, number),
            None => unreachable!(),
        }
    }

    /// The names, in order of definition.
    ///
    /// # Errors
    /// Out of memory.
    pub(crate) fn names(&self, alloc: Global) -> Result<Vec<&Name>, NoMemory>
        ensures { IfOk result (λ ns. map (λ n. n.now) ns.items ≡ map (λ e. e.0) self.now.entries) }
    {
        match &self.linked {
            Some(linked) => names_of(alloc, linked),
            None => Ok(Vec::new(alloc)),
        }
    }

    /// Copies of the entries, in their order.
    ///
    /// # Errors
    /// Out of memory.
    pub(crate) fn copy(&self) -> Result<Entries, NoMemory>
        ensures copied { IfOk result (λ es. AreCopied self.now.entries es.entries) }
        ensures hashed { IfOk result (λ es. es.hashing ≡ self.now.hashing) }
    {
        let mut copies = Entries::new(self.alloc, self.hashing);
        if let Some(linked) = &self.linked {
            copy_into(&mut copies, linked)?;
        }
        Ok(copies)
    }
}

/// The list of a first entry.
///
/// # Errors
/// The entry, where memory runs out.
fn first(
    alloc: Global,
    hashing: NameHashing,
    name: Name,
    entry: NameEntry,
) -> Result<Linked, NameEntry>
    ensures ok { IfOk result (λ c. c.entries ≡ (name, entry) ∷ []) }
    ensures cap { IfOk result (λ c. c.cap ≡ 2 ^ 64 - 1) }
    ensures back { IfErr result (λ e. e ≡ entry) }
{
    match LruCache::unbounded_with_hasher(alloc, hashing) {
        Ok(mut linked) => {
            push_into(&mut linked, name, entry)?;
            Ok(linked)
        }
        Err(_) => Err(entry),
    }
}

/// Puts an entry under a new name at the end.
///
/// # Errors
/// The entry, where memory runs out; nothing is changed then.
fn push_into(linked: &mut Linked, name: Name, entry: NameEntry) -> Result<(), NameEntry>
    requires cap { linked.old.cap ≡ 2 ^ 64 - 1 }
    requires new { lookup (bytes_eq name) linked.old.entries ≡ None }
    ensures ok { OnOk result (linked.new.entries ≡ linked.old.entries ++ (name, entry) ∷ []) }
    ensures err { OnErr result (linked.new.entries ≡ linked.old.entries) }
    ensures back { IfErr result (λ e. e ≡ entry) }
    ensures cap { linked.new.cap ≡ linked.old.cap }
{
    match name.copy() {
        Ok(key) => put_last(linked, name, entry, &key),
        Err(_) => Err(entry),
    }
}

/// Puts an entry under a new name, and then behind all others.
///
/// # Errors
/// The entry, where memory runs out; nothing is changed then.
fn put_last(linked: &mut Linked, name: Name, entry: NameEntry, key: &Name) -> Result<(), NameEntry>
    requires cap { linked.old.cap ≡ 2 ^ 64 - 1 }
    requires new { lookup (bytes_eq name) linked.old.entries ≡ None }
    requires key { key.now ≡ name }
    ensures ok { OnOk result (linked.new.entries ≡ linked.old.entries ++ (name, entry) ∷ []) }
    ensures err { OnErr result (linked.new.entries ≡ linked.old.entries) }
    ensures back { IfErr result (λ e. e ≡ entry) }
    ensures cap { linked.new.cap ≡ linked.old.cap }
{
    let _ = linked.len(); // it has room for one more
    match linked.put(name, entry) {
        Ok(old) => {
            drop(old);
            let _ = linked.demote(key);
            Ok(())
        }
        Err(failed) => Err(failed.value.1),
    }
}

/// Takes out the entry of the name.
fn remove_from(linked: &mut Linked, name: &Name) -> Option<NameEntry>
    ensures value { result ≡ lookup (bytes_eq name.now) linked.old.entries }
    ensures entries { linked.new.entries ≡ remove_entry (bytes_eq name.now) linked.old.entries }
    ensures gone { lookup (bytes_eq name.now) linked.new.entries ≡ None }
    ensures cap { linked.new.cap ≡ linked.old.cap }
{
    let _ = linked.len(); // each name stands once
    linked.pop(name)
}

/// Counts one view more that speaks of the name, where that is defined.
fn raise_in(linked: &mut Linked, name: &Name)
    requires { IfSome (users_at name.now linked.old.entries) (λ k. k < 2 ^ 64 - 1) }
    ensures raised { Raises (λ n. bytes_eq n name.now) linked.old.entries linked.new.entries }
    ensures cap { linked.new.cap ≡ linked.old.cap }
{
    if let Some(entry) = linked.peek_mut(name) {
        entry.users += 1;
    }
}

/// Counts one view less that speaks of the name, where that is defined.
fn lower_in(linked: &mut Linked, name: &Name)
    requires { IfSome (users_at name.now linked.old.entries) (λ k. 0 < k) }
    ensures lowered { Raises (λ n. bytes_eq n name.now) linked.new.entries linked.old.entries }
    ensures cap { linked.new.cap ≡ linked.old.cap }
{
    if let Some(entry) = linked.peek_mut(name) {
        entry.users -= 1;
    }
}

/// Inserts a tuple into the relation of the name.
///
/// # Errors
/// As [`Entries::insert`] says.
fn insert_in(linked: &mut Linked, name: &Name, limit: u32, tuple: Tuple) -> Result<u32, Refusal>
    requires { Alters linked.old.entries linked.old.entries name.now
        (λ old new. AreUpTo old.inserts old.tuples.entries) }
    ensures ok { IfOk result (λ k. Alters linked.old.entries linked.new.entries name.now
        (λ old new. Pushes old new tuple k × (refusal_of limit old ≡ None))) }
    ensures err { IfErr result (λ r. Alters linked.old.entries linked.new.entries name.now (λ old new. IsSame old new
        × (r ≡ unwrap_or (refusal_of limit old) Memory))) }
    ensures cap { linked.new.cap ≡ linked.old.cap }
{
    match linked.peek_mut(name) {
        Some(entry) => entry.stored.insert(limit, tuple),
        None => unreachable!(),
    }
}

/// Deletes the tuple of the number from the relation of the name.
///
/// # Errors
/// Out of memory; nothing is changed then.
fn delete_in(linked: &mut Linked, name: &Name, number: u64) -> Result<(), NoMemory>
    requires { Alters linked.old.entries linked.old.entries name.now (λ old new. AreUpTo old.inserts old.tuples.entries
        × (list_any (λ t. t.0 == number) old.tuples.entries ≡ true)) }
    ensures ok { IfOk result (λ _. Alters linked.old.entries linked.new.entries name.now
        (λ old new. Removes old new number)) }
    ensures err { IfErr result (λ _. Alters linked.old.entries linked.new.entries name.now
        (λ old new. IsSame old new)) }
    ensures cap { linked.new.cap ≡ linked.old.cap }
{
    match linked.peek_mut(name) {
        Some(entry) => entry.stored.delete(number),
        None => unreachable!(),
    }
}

/// The names of the entries.
///
/// # Errors
/// Out of memory.
fn names_of(alloc: Global, linked: &Linked) -> Result<Vec<&Name>, NoMemory>
    ensures { IfOk result (λ ns. map (λ n. n.now) ns.items ≡ map (λ e. e.0) linked.now.entries) }
{
    let mut names = Vec::new(alloc);
    for (name, _) in linked {
        names.push(name)?;
    }
    Ok(names)
}

/// Puts copies of the entries at the end of a list that is empty yet.
///
/// # Errors
/// Out of memory.
fn copy_into(copies: &mut Entries, linked: &Linked) -> Result<(), NoMemory>
    requires { copies.old.entries ≡ [] }
    ensures copied { OnOk result (AreCopied linked.now.entries copies.new.entries) }
    ensures hashed { copies.new.hashing ≡ copies.old.hashing }
{
    let _ = linked.len(); // each name stands once
    for (name, entry) in linked {
        let key = name.copy()?;
        let copy = NameEntry {
            stored: entry.stored.clone()?,
            users: entry.users,
        };
        push_copy(copies, key, copy)?;
    }
    Ok(())
}

/// Puts an entry under a new name at the end.
///
/// # Errors
/// Out of memory; nothing is changed then.
fn push_copy(copies: &mut Entries, name: Name, entry: NameEntry) -> Result<(), NoMemory>
    requires { lookup (bytes_eq name) copies.old.entries ≡ None }
    ensures pushed { OnOk result (copies.new.entries ≡ copies.old.entries ++ (name, entry) ∷ []) }
    ensures hashed { copies.new.hashing ≡ copies.old.hashing }
{
    match copies.push(name, entry) {
        Ok(()) => Ok(()),
        Err(entry) => {
            drop(entry);
            Err(AllocError)
        }
    }
}
