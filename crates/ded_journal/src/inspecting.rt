//! What a store that was just opened holds: a journal, nothing yet, or something else.
//!
//! `inspect` counts the statements of a journal, and makes the table in a store that has nothing.
ghost use Rattle.std.specs.Prelude.{◌≡◌, ◌≢◌, ◌⊎◌, ◌↔◌, ◌<◌, ◌≤◌, ◌^◌, ℕ, List, [], ◌∷◌, false, length, map, take};
ghost use Rattle.std.specs.Prelude.{IsTrue, IfOk, IfErr, OnOk, MatchOption, ⊤};
ghost use Rattle.sqlite_disk.specs.Disk.{MoreFaults};
ghost use Rattle.sqlite_trees.specs.Tree.{Trees};
ghost use Rattle.sqlite_trees.specs.Objects.{catalog_tree, version_tree, version_rows};
ghost use Rattle.sqlite_trees.specs.View.{doubt, IsClean, HasCause, IsQuiet};
ghost use Rattle.sqlite_exec.specs.Calls.{OnlyReads};
ghost use Rattle.sqlite.specs.Steps.{IsFresh};
ghost use Rattle.ded_journal.specs.Statements.{stamp, statement_row, statement_rows, text_in, table_listing};
ghost use Rattle.ded_journal.specs.Statements.{HoldsStatements, IsUnwritten};
ghost use Rattle.ded_journal.specs.Journals.{AddsOnlyNone, IsExcused, RefusesFor, IsBegun, IsLaid, is_refusal};
ghost use Rattle.ded_journal.specs.Invariant.{IsKeptBy};

use crate::NotOpened;
use crate::raw::lay;
use sqlite_trees::error::StoreError;
use sqlite_trees::schema::Object;
use sqlite_trees::sound::bytes_of;
use sqlite_trees::store::{Alter, Direction, Shape, Store};
use sqlite_value::row::Row;
use sqlite_value::value::ValueRef;
use std::alloc::{AllocError, Global};

/// The first version of the schema, under "DED" as the bytes above it.
const STAMP: u32 = 0x4445_4401;

const TABLE: &str =
    "CREATE TABLE statement (number INTEGER PRIMARY KEY, text TEXT NOT NULL) STRICT";

/// The version of the schema, if the user version is a journal's.
fn version_in(found: u32) -> Option<u32>
    ensures { MatchOption result
        ((version : ℕ) → 0 < version → version < 256 → found ≢ stamp version)
        (λ version. (0 < version) × (version < 256) × (found ≡ stamp version)) }
{
    if found >= STAMP && found - STAMP < 255 {
        Some(found - STAMP + 1)
    } else {
        None
    }
}

fn listing(alloc: Global) -> Result<Row, AllocError>
    ensures { IfOk result (λ row. row ≡ table_listing) }
{
    let mut row = Row::new(alloc);
    row.push(ValueRef::Int(1))?;
    row.push(ValueRef::Text(b"table"))?;
    row.push(ValueRef::Text(b"statement"))?;
    row.push(ValueRef::Text(b"statement"))?;
    row.push(ValueRef::Text(TABLE.as_bytes()))?;
    Ok(row)
}

fn is_only(objects: &[Row], wanted: &Row) -> bool
    ensures { IsTrue result ↔ (objects.now ≡ wanted.now ∷ []) }
{
    match objects {
        [row] => row.is_same(wanted),
        _ => false,
    }
}

/// Whether the table of statements is all that the store has.
fn is_listed<S: Alter>(alloc: Global, store: &S) -> Result<bool, AllocError>
    ensures { IfOk result (λ b. IsClean (S.Store.view store.now)
        → IsTrue b ↔ ((map (take 5) ((S.Store.view store.now).trees catalog_tree) ≡ table_listing ∷ [])
        × ((S.Store.view store.now).shape 0 ≡ Shape.Table) × ((S.Store.view store.now).reals 0 ≡ 0))) }
{
    let objects = store.objects(alloc)?;
    let wanted = listing(alloc)?;
    let only = is_only(objects.as_slice(), &wanted);
    let shaped = store.shape(0) == Shape::Table && store.reals(0) == 0;
    Ok(only && shaped)
}

/// How many statements the table has, if it has nothing else.
fn count<S: Store>(alloc: Global, store: &mut S) -> Result<Option<u64>, StoreError>
    requires { IsClean (S.Store.view store.old) → (S.Store.view store.old).shape 0 ≡ Shape.Table }
    ensures ok { IfOk result (λ found. IsClean (S.Store.view store.new) → MatchOption found
        ((list : List (List ℕ)) → (S.Store.view store.old).trees 0 ≢ statement_rows 1 list)
        (λ n. (list : List (List ℕ)) × ((S.Store.view store.old).trees 0 ≡ statement_rows 1 list)
        × (n ≡ length list))) }
    ensures few { IfOk result (λ found. MatchOption found (⊤) (λ n. n < 2 ^ 63)) }
    ensures same { OnOk result (IsClean (S.Store.view store.new)
        → OnlyReads (S.Store.view store.old) (S.Store.view store.new)) }
    ensures cause { IsClean (S.Store.view store.new)
        → IfErr result (HasCause (S.Store.view store.old)
        (MoreFaults (S.Store.faults store.old) (S.Store.faults store.new)) ⊥) }
    ensures quiet { IsQuiet S.Store.view S.Store.faults S.Store.recovers S.Store.is_shielded store.old store.new }
{
    let mut row = Row::new(alloc);
    let mut again = Row::new(alloc);
    store.seek(0, 0, &row, Direction::Forward)?;
    // A disk that lies could keep a cursor going, so the loop counts.
    'rows: for number in 0..i64::MAX as u64 {
        if !store.next(0, &mut row)? {
            return Ok(Some(number));
        }
        lay(&mut again, number + 1, bytes_of(row.get(2)))?;
        if !row.is_same(&again) {
            return Ok(None);
        }
    }
    Err(StoreError::OutOfMemory)
}

/// Lists the table, and stamps the database.
fn lay_down<S: Alter>(store: &mut S) -> Result<(), StoreError>
    requires fresh { IsClean (S.Store.view store.old) → IsFresh (S.Store.view store.old) }
    requires nothing { IsClean (S.Store.view store.old) → IsUnwritten (S.Store.view store.old).trees }
    ensures ok { OnOk result (IsClean (S.Store.view store.new) → IsLaid (S.Store.view store.new)) }
    ensures cause { IsClean (S.Store.view store.new)
        → IfErr result (IsExcused (MoreFaults (S.Store.faults store.old) (S.Store.faults store.new))) }
    ensures quiet { IsQuiet S.Store.view S.Store.faults S.Store.recovers S.Store.is_shielded store.old store.new }
{
    let table = Object {
        shape: Shape::Table,
        kind: "table",
        name: "statement",
        table: "statement",
        reals: 0,
        sql: Some(TABLE),
    };
    store.create(0, &table)?;
    store.set_version(STAMP)
}

/// Makes a journal of a store that has nothing.
fn make<S: Alter>(store: &mut S) -> Result<(), StoreError>
    requires fresh { IsClean (S.Store.view store.old) → IsFresh (S.Store.view store.old) }
    requires nothing { IsClean (S.Store.view store.old) → IsUnwritten (S.Store.view store.old).trees }
    ensures kept { OnOk result (IsKeptBy (S.Store.view store.new) (S.Store.recovers store.new) 0 0) }
    ensures ok { OnOk result (IsClean (S.Store.view store.new)
        → IsBegun (S.Store.view store.old) (S.Store.view store.new)) }
    ensures cause { IsClean (S.Store.view store.new)
        → IfErr result (IsExcused (MoreFaults (S.Store.faults store.old) (S.Store.faults store.new))) }
    ensures clean { doubt (S.Store.view store.old).is_clean ≤ doubt (S.Store.view store.new).is_clean }
    ensures counts { S.Store.faults store.old ≤ S.Store.faults store.new }
    ensures shield { S.Store.is_shielded store.old → S.Store.is_shielded store.new }
    ensures crash { IsClean (S.Store.view store.new)
        → AddsOnlyNone S.Store.recovers store.old store.new (S.Store.view store.old).trees }
{
    if let Err(error) = lay_down(store) {
        store.rollback();
        return Err(error);
    }
    store.commit()
}

/// The statements of a journal that is stamped by this version.
fn attach<S: Alter>(alloc: Global, store: &mut S) -> Result<u64, NotOpened>
    requires fresh { IsClean (S.Store.view store.old) → IsFresh (S.Store.view store.old) }
    requires stamped { IsClean (S.Store.view store.old)
        → (S.Store.view store.old).trees version_tree ≡ version_rows (stamp 1) }
    ensures kept { IfOk result (λ n. IsKeptBy (S.Store.view store.new) (S.Store.recovers store.new) n n) }
    ensures ok { OnOk result (IsClean (S.Store.view store.new)
        → IsBegun (S.Store.view store.old) (S.Store.view store.new)) }
    ensures cause { IsClean (S.Store.view store.new)
        → IfErr result (RefusesFor (S.Store.view store.old)
        (MoreFaults (S.Store.faults store.old) (S.Store.faults store.new))) }
    ensures quiet { IsQuiet S.Store.view S.Store.faults S.Store.recovers S.Store.is_shielded store.old store.new }
{
    if !is_listed(alloc, store)? {
        return Err(NotOpened::Damaged);
    }
    match count(alloc, store)? {
        Some(found) => Ok(found),
        None => Err(NotOpened::Damaged),
    }
}

/// Whether the store has no object and no user version.
fn has_nothing<S: Alter>(alloc: Global, store: &S) -> Result<bool, AllocError>
    requires { IsClean (S.Store.view store.now) → IsFresh (S.Store.view store.now) }
    ensures { IfOk result (λ b. IsClean (S.Store.view store.now)
        → IsTrue b ↔ IsUnwritten (S.Store.view store.now).trees) }
{
    let objects = store.objects(alloc)?;
    Ok(objects.is_empty() && store.version() == 0)
}

/// The statements of a journal, or of one that is made.
pub(crate) fn inspect<S: Alter>(alloc: Global, store: &mut S) -> Result<u64, NotOpened>
    requires fresh { IsClean (S.Store.view store.old) → IsFresh (S.Store.view store.old) }
    ensures kept { IfOk result (λ n. IsKeptBy (S.Store.view store.new) (S.Store.recovers store.new) n n) }
    ensures ok { OnOk result (IsClean (S.Store.view store.new)
        → IsBegun (S.Store.view store.old) (S.Store.view store.new)) }
    ensures cause { IsClean (S.Store.view store.new)
        → IfErr result (RefusesFor (S.Store.view store.old)
        (MoreFaults (S.Store.faults store.old) (S.Store.faults store.new))) }
    ensures clean { doubt (S.Store.view store.old).is_clean ≤ doubt (S.Store.view store.new).is_clean }
    ensures counts { S.Store.faults store.old ≤ S.Store.faults store.new }
    ensures shield { S.Store.is_shielded store.old → S.Store.is_shielded store.new }
    ensures crash { IsClean (S.Store.view store.new)
        → AddsOnlyNone S.Store.recovers store.old store.new (S.Store.view store.old).trees }
    ensures same { IfErr result (λ e. IsTrue (is_refusal e)
        → IsQuiet S.Store.view S.Store.faults S.Store.recovers S.Store.is_shielded store.old store.new) }
{
    if has_nothing(alloc, store)? {
        make(store)?;
        return Ok(0);
    }
    match version_in(store.version()) {
        Some(1) => attach(alloc, store),
        Some(newer) => Err(NotOpened::Newer(newer)),
        None => Err(NotOpened::Foreign),
    }
}
