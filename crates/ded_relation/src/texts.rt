//! The tuples of a relation by the texts that they fix in its columns.
//!
//! It is a set of keys: behind the code of a column and of a text in it, which is a hash, stand the numbers of the
//! tuples that fix this text there, and behind the code of the column alone those of the tuples that fix none. So the
//! numbers of all tuples that may have a text in a column stand in two runs of keys. Nothing rests on the hash but that
//! it is a function: texts that have one code are slow to find, and nothing is lost.
ghost use Rattle.std.specs.Prelude.{◌≡◌, ◌%◌, ◌^◌, true, false, IfOk, IfSome, is_none, [], ◌∷◌};
ghost use Rattle.std.specs.BTreeSet.{contains};
ghost use Rattle.std.specs.Ordering.{nat_cmp};
ghost use Rattle.ded_relation.specs.Texts.{is_text, text_in, code, key, IsThere, Keeps, IsGone, Grows, HasAll, AreWith};

use crate::fixed::{is_text, is_text_at, text_code, text_in};
use crate::hashing::NameHashing;
use ded_model::memory::NoMemory;
use ded_model::name::{Column, Heading, Name};
use ded_model::tuple::{Atom, Tuple};
use std::alloc::Global;
use std::collections::BTreeSet;

/// The keys of tuples, and how texts are hashed.
#[derive(Drop)]
pub(crate) struct Texts {
    hashing: NameHashing,
    set: BTreeSet<u128>,
}

impl Texts {
    /// No tuples.
    pub(crate) fn new(alloc: Global, hashing: NameHashing) -> Texts
        ensures { result.set.keys ≡ [] }
    {
        Texts {
            hashing,
            set: BTreeSet::new(alloc),
        }
    }

    /// The same keys.
    ///
    /// # Errors
    /// Out of memory.
    pub(crate) fn copy(&self) -> Result<Texts, NoMemory>
        ensures hashing { IfOk result (λ t. t.hashing ≡ self.now.hashing) }
        ensures set { IfOk result (λ t. t.set.keys ≡ self.now.set.keys) }
    {
        Ok(Texts {
            hashing: self.hashing,
            set: self.set.clone()?,
        })
    }

    /// Adds the keys of a tuple over the columns.
    ///
    /// # Errors
    /// Out of memory; some of the keys may be there then.
    pub(crate) fn insert(
        &mut self,
        heading: &Heading,
        number: u32,
        tuple: &Tuple,
    ) -> Result<(), NoMemory>
        ensures hashing { self.new.hashing ≡ self.old.hashing }
        ensures grows { Grows self.old.set self.new.set }
        ensures there { IfOk result (λ _. IsThere self.old.hashing heading.now self.new.set (number, tuple.now)) }
    {
        put_all(
            &mut self.set,
            self.hashing,
            &heading.columns,
            number,
            &tuple.atoms,
        )
    }

    /// Takes out the keys of a tuple over the columns. It does not allocate.
    pub(crate) fn remove(&mut self, heading: &Heading, number: u32, tuple: &Tuple)
        ensures hashing { self.new.hashing ≡ self.old.hashing }
        ensures keeps { Keeps number self.old.set self.new.set }
        ensures gone { IsGone self.old.hashing heading.now self.new.set (number, tuple.now) }
    {
        take_all(
            &mut self.set,
            self.hashing,
            &heading.columns,
            number,
            &tuple.atoms,
        );
    }

    /// The numbers of the tuples over the columns that may have the texts in their columns, ascending. None where these
    /// are too many, or no text stands in a column of texts.
    ///
    /// # Errors
    /// Out of memory.
    pub(crate) fn find(
        &self,
        alloc: Global,
        heading: &Heading,
        asked: &[(usize, Name)],
        most: usize,
    ) -> Result<Option<Vec<u32>>, NoMemory>
        ensures found { IfOk result (λ found. IfSome found
            (λ ids. AreWith self.now.hashing heading.now self.now.set asked.now ids.items)) }
        ensures none { asked.now ≡ [] → IfOk result (λ found. is_none found ≡ true) }
    {
        for i in 0..asked.len() {
            if let Some(found) = self.find_one(alloc, heading, &asked[i], most)? {
                return Ok(Some(found));
            }
        }
        Ok(None)
    }

    /// The numbers of the tuples over the columns that may have the text in its column, ascending. None where these are
    /// too many, or the column isn't one of texts.
    fn find_one(
        &self,
        alloc: Global,
        heading: &Heading,
        asked: &(usize, Name),
        most: usize,
    ) -> Result<Option<Vec<u32>>, NoMemory>
        ensures { IfOk result (λ found. IfSome found
            (λ ids. AreWith self.now.hashing heading.now self.now.set (asked.now ∷ []) ids.items)) }
    {
        let mut found = Vec::new(alloc);
        if is_text_at(&heading.columns, asked.0)
            && push_behind(
                &self.set,
                text_code(self.hashing, asked.0, Some(&asked.1)),
                most,
                &mut found,
            )?
            && push_behind(
                &self.set,
                text_code(self.hashing, asked.0, None),
                most,
                &mut found,
            )?
        {
            found.sort_unstable();
            found.dedup();
            Ok(Some(found))
        } else {
            Ok(None)
        }
    }
}

/// Adds the keys of a tuple over the columns.
///
/// # Errors
/// Out of memory.
fn put_all(
    set: &mut BTreeSet<u128>,
    hashing: NameHashing,
    columns: &[Column],
    number: u32,
    atoms: &[Atom],
) -> Result<(), NoMemory>
    ensures grows { Grows set.old set.new }
    ensures there { IfOk result (λ _. IsThere hashing columns.now set.new (number, atoms.now)) }
{
    for i in 0..columns.len() {
        put_at(set, hashing, &columns[i], i, number, atoms)?;
    }
    Ok(())
}

/// Adds the key of a tuple in a column, if it is one of texts.
///
/// # Errors
/// Out of memory.
fn put_at(
    set: &mut BTreeSet<u128>,
    hashing: NameHashing,
    column: &Column,
    place: usize,
    number: u32,
    atoms: &[Atom],
) -> Result<(), NoMemory>
    ensures grows { Grows set.old set.new }
    ensures there { IfOk result (λ _. is_text column.now.sort ≡ true
        → contains nat_cmp set.new (key (code hashing place (text_in place atoms.now)) number) ≡ true) }
{
    if is_text(column.sort) {
        set.insert(key(text_code(hashing, place, text_in(atoms, place)), number))?;
    }
    Ok(())
}

/// Takes out the keys of a tuple over the columns.
fn take_all(
    set: &mut BTreeSet<u128>,
    hashing: NameHashing,
    columns: &[Column],
    number: u32,
    atoms: &[Atom],
)
    ensures keeps { Keeps number set.old set.new }
    ensures gone { IsGone hashing columns.now set.new (number, atoms.now) }
{
    for i in 0..columns.len() {
        take_at(set, hashing, &columns[i], i, number, atoms);
    }
}

/// Takes out the key of a tuple in a column, if it is one of texts.
fn take_at(
    set: &mut BTreeSet<u128>,
    hashing: NameHashing,
    column: &Column,
    place: usize,
    number: u32,
    atoms: &[Atom],
)
    ensures fewer { Grows set.new set.old }
    ensures keeps { Keeps number set.old set.new }
    ensures gone { is_text column.now.sort ≡ true
        → contains nat_cmp set.new (key (code hashing place (text_in place atoms.now)) number) ≡ false }
{
    if is_text(column.sort) {
        set.remove(&key(text_code(hashing, place, text_in(atoms, place)), number));
    }
}

/// Adds the numbers behind the code, as long as there are no more than so many. Whether all are there.
///
/// # Errors
/// Out of memory.
fn push_behind(
    set: &BTreeSet<u128>,
    code: u64,
    most: usize,
    found: &mut Vec<u32>,
) -> Result<bool, NoMemory>
    ensures { IfOk result (λ all. all ≡ true → HasAll set.now code found.old.items found.new.items) }
{
    for key in set.range(key(code, 0)..=key(code, u32::MAX)) {
        if most <= found.len() {
            return Ok(false);
        }
        found.push(number_of(*key))?;
    }
    Ok(true)
}

/// The key of a number behind a code.
fn key(code: u64, number: u32) -> u128
    ensures { result ≡ key code number }
{
    u128::from(code) * 4294967296 + u128::from(number)
}

/// The number of a key.
fn number_of(key: u128) -> u32
    ensures { result ≡ key % 2 ^ 32 }
{
    (key % 4294967296) as u32
}
