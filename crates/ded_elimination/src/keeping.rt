//! Rows that are kept together, none of which another one with its coefficients makes superfluous.
//!
//! The first few are looked through one by one. Of those behind them a hash of the coefficients tells where some stand,
//! so that many are kept in no more than their own time. Nothing rests on the hash: a row that it hides is one too
//! many.
ghost use Rattle.std.specs.Prelude.{◌≡◌, ◌++◌, ◌∷◌, true, [], IfOk};
ghost use Rattle.ded_model.specs.Coefs.{AreCoefs};
ghost use Rattle.ded_model.specs.Normal.{IsNormalRow, is_true_with};
ghost use Rattle.ded_elimination.specs.Keeping.{at_least, Implies, IsRival, Keeps};

use ded_model::memory::NoMemory;
use ded_model::row::{Row, RowOp};
use ded_model::slot::Slot;
use std::alloc::Global;
use std::collections::HashMap;
use std::hash::{DefaultHasher, Hash, Hasher};

/// How many rows, the first ones, are looked through one by one. Those behind them are found by a hash, which so few
/// rows aren't worth.
const LOOKED_THROUGH_UP_TO: usize = 32;

/// Rows that are kept together, and at which place one behind the first few stands by the hash of its coefficients.
#[derive(Drop)]
pub struct Kept {
    pub rows: Vec<Row>,
    places: HashMap<u64, usize>,
}

impl Kept {
    /// No rows. It does not allocate.
    pub fn new(alloc: Global) -> Kept
        ensures { result.rows.items ≡ [] }
    {
        Kept {
            rows: Vec::new(alloc),
            places: HashMap::new(alloc),
        }
    }

    /// Adds the row at the end.
    fn push(&mut self, row: Row) -> Result<(), NoMemory>
        ensures { IfOk result (λ _. self.new.rows.items ≡ self.old.rows.items ++ row ∷ []) }
    {
        let place = self.rows.len();
        if place >= LOOKED_THROUGH_UP_TO {
            self.places.insert(hash_of(&row), place)?;
        }
        self.rows.push(row)?;
        Ok(())
    }
}

/// A hash of the row's coefficients.
fn hash_of(row: &Row) -> u64 {
    let mut state = DefaultHasher::new();
    row.coefs.hash(&mut state);
    state.finish()
}

/// What stands in the way of a row among others.
enum Rival {
    /// No row that it implies or that implies it.
    Nothing,
    /// A row that implies it.
    Stronger,
    /// A row that it implies, at this place.
    Weaker(usize),
}

/// Adds a row, so that the rows hold where they held and the row does. Of two rows with the same coefficients the
/// stronger is kept, and both where the hash of another row hides one; a row without coefficients is not added. Returns
/// whether the row holds anywhere.
///
/// # Errors
/// Out of memory.
pub fn keep(out: &mut Kept, row: Row) -> Result<bool, NoMemory>
    requires normal { IsNormalRow row }
    ensures keeps { IfOk result (λ more. Keeps row out.old.rows.items more out.new.rows.items) }
    ensures coefs { AreCoefs row.coefs }
{
    if row.coefs.list().is_empty() {
        return Ok(is_truth(row.op));
    }
    match find_rival(out, &row) {
        Rival::Nothing => out.push(row)?,
        Rival::Stronger => {},
        Rival::Weaker(place) => out.rows[place] = row,
    }
    Ok(true)
}

/// Whether a normal row without coefficients is the true one, by its op.
fn is_truth(op: RowOp) -> bool
    ensures { result ≡ is_true_with op [] }
{
    match op {
        RowOp::Zero | RowOp::AtMost => true,
        RowOp::Below => false,
    }
}

/// A row among those that are kept that has the same coefficients as the row and implies it or is implied by it: one of
/// the first few, or the last of the others that has their hash.
fn find_rival(kept: &Kept, row: &Row) -> Rival
    ensures { IsRival kept.now.rows.items row.now result }
{
    let rows = kept.rows.as_slice();
    for i in 0..rows.len().min(LOOKED_THROUGH_UP_TO) {
        match rival_at(rows, i, row) {
            Rival::Nothing => {}
            rival => return rival,
        }
    }
    if rows.len() <= LOOKED_THROUGH_UP_TO {
        return Rival::Nothing;
    }
    match kept.places.get(&hash_of(row)) {
        Some(place) => rival_at(rows, *place, row),
        None => Rival::Nothing,
    }
}

/// What the row at the place is to the row.
fn rival_at(rows: &[Row], place: usize, row: &Row) -> Rival
    ensures { IsRival rows.now row.now result }
{
    if place >= rows.len() {
        return Rival::Nothing;
    }
    let other = &rows[place];
    if implies(other, row) {
        Rival::Stronger
    } else if implies(row, other) {
        Rival::Weaker(place)
    } else {
        Rival::Nothing
    }
}

/// Whether the two rows have the same coefficients, and the first one holds only where the second one does. It does not
/// allocate.
pub fn implies(a: &Row, b: &Row) -> bool
    ensures { result ≡ true → Implies a.now b.now }
{
    same_coefs(a.coefs.list(), b.coefs.list()) && is_at_least(a, b)
}

/// Whether, over the same coefficients, a row with the constant and op of the first row holds only where one with those
/// of the second does.
fn is_at_least(a: &Row, b: &Row) -> bool
    ensures { result ≡ at_least a.now b.now }
{
    match (a.op, b.op) {
        (RowOp::Zero, RowOp::Zero) => a.constant == b.constant,
        (RowOp::AtMost, RowOp::Zero) | (RowOp::Below, RowOp::Zero) => false,
        (RowOp::Zero, RowOp::Below) | (RowOp::AtMost, RowOp::Below) => b.constant < a.constant,
        (_, RowOp::AtMost) | (RowOp::Below, RowOp::Below) => b.constant <= a.constant,
    }
}

/// Whether the two lists of coefficients are equal.
fn same_coefs(a: &[(Slot, i128)], b: &[(Slot, i128)]) -> bool
    ensures { result ≡ true → a.now ≡ b.now }
{
    if a.len() != b.len() {
        return false;
    }
    for i in 0..a.len() {
        if !(a[i].0.is_same(b[i].0) && a[i].1 == b[i].1) {
            return false;
        }
    }
    true
}
