//! Calls on the store itself, for one row of the table of statements.
ghost use Rattle.std.specs.Prelude.{◌≡◌, ◌⊎◌, ◌+◌, ◌^◌, ◌<◌, ◌≤◌, false, pos, IfOk, IfErr, OnOk};
ghost use Rattle.sqlite_disk.specs.Disk.{MoreFaults};
ghost use Rattle.sqlite_value.specs.Order.{column, bytes};
ghost use Rattle.sqlite_trees.specs.Tree.{put_row};
ghost use Rattle.sqlite_trees.specs.View.{Tells, IsClean, HasCause, IsQuiet, SetsTree, KeepsCommitted};
ghost use Rattle.ded_journal.specs.Statements.{statement_row, text_in, FindsText, IsTooLong};

use sqlite_trees::error::StoreError;
use sqlite_trees::sound::bytes_of;
use sqlite_trees::store::{Shape, Store};
use sqlite_value::row::Row;
use sqlite_value::value::ValueRef;
use std::alloc::AllocError;

/// The row of a statement.
pub(crate) fn lay(row: &mut Row, number: u64, text: &[u8]) -> Result<(), AllocError>
    requires { number < 2 ^ 63 }
    ensures { OnOk result (row.new ≡ statement_row number text.now) }
{
    row.clear();
    row.push(ValueRef::Int(number as i64))?;
    row.push(ValueRef::Null)?;
    row.push(ValueRef::Text(text))
}

/// Stores a statement under this number. `row` is room to work in.
pub(crate) fn put_statement<S: Store>(
    store: &mut S,
    row: &mut Row,
    number: u64,
    text: &[u8],
) -> Result<(), StoreError>
    requires table { IsClean (S.Store.view store.old) → (S.Store.view store.old).shape 0 ≡ Shape.Table }
    requires reals { IsClean (S.Store.view store.old) → (S.Store.view store.old).reals 0 ≡ 0 }
    ensures ok { OnOk result (IsClean (S.Store.view store.new)
        → SetsTree (S.Store.view store.old) (S.Store.view store.new) 0 (put_row (statement_row number text.now))) }
    ensures few { OnOk result (number < 2 ^ 63) }
    ensures err { IfErr result (λ _. IsClean (S.Store.view store.new)
        → KeepsCommitted (S.Store.view store.old) (S.Store.view store.new)) }
    ensures told { IfErr result (Tells (S.Store.blamed store.new)) }
    ensures cause { IsClean (S.Store.view store.new)
        → IfErr result (HasCause (S.Store.view store.old)
        (MoreFaults (S.Store.faults store.old) (S.Store.faults store.new))
        (IsTooLong text.now ⊎ ((2 ^ 63 ≤ number) × ((S.Store.view store.old).is_broken ≡ false)))) }
    ensures quiet { IsQuiet S.Store.view S.Store.faults S.Store.recovers S.Store.is_shielded store.old store.new }
{
    if store.is_broken() {
        return Err(StoreError::Broken);
    }
    if number >= 1 << 63 {
        return Err(StoreError::Unstorable);
    }
    lay(row, number, text)?;
    store.put(0, row)
}

fn copy_text(row: &Row, text: &mut Vec<u8>) -> Result<(), AllocError>
    ensures { OnOk result (text.new.items ≡ text_in row.now) }
{
    text.clear();
    text.extend_from_slice(bytes_of(row.get(2)))
}

/// Writes the text of the statement with this number over `text`, if there is one.
pub(crate) fn find_statement<S: Store>(
    store: &mut S,
    row: &mut Row,
    number: u64,
    text: &mut Vec<u8>,
) -> Result<bool, StoreError>
    requires table { IsClean (S.Store.view store.old) → (S.Store.view store.old).shape 0 ≡ Shape.Table }
    requires few { number < 2 ^ 63 }
    ensures ok { IfOk result (λ found. IsClean (S.Store.view store.new)
        → FindsText ((S.Store.view store.old).trees 0) number text.new.items found) }
    ensures same { OnOk result (IsClean (S.Store.view store.new) → S.Store.view store.new ≡ S.Store.view store.old) }
    ensures sound { OnOk result (IsClean (S.Store.view store.new) → (S.Store.view store.old).is_broken ≡ false) }
    ensures err { IfErr result (λ _. IsClean (S.Store.view store.new)
        → KeepsCommitted (S.Store.view store.old) (S.Store.view store.new)) }
    ensures told { IfErr result (Tells (S.Store.blamed store.new)) }
    ensures cause { IsClean (S.Store.view store.new)
        → IfErr result (HasCause (S.Store.view store.old)
        (MoreFaults (S.Store.faults store.old) (S.Store.faults store.new)) ⊥) }
    ensures quiet { IsQuiet S.Store.view S.Store.faults S.Store.recovers S.Store.is_shielded store.old store.new }
{
    if !store.get(0, number as i64, row)? {
        return Ok(false);
    }
    copy_text(row, text)?;
    Ok(true)
}
