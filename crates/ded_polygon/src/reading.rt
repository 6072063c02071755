//! Rows over two slots as half planes.
ghost use Rattle.std.specs.Prelude.{◌≡◌, ◌↔◌, ◌||◌, ◌++◌, IsTrue, IfOk, IsErrOf, MatchOption, OnOk};
ghost use Rattle.ded_num.specs.Length.{IsWithin};
ghost use Rattle.ded_model.specs.declared.memory.Refused.TheVariants.{Wide};
ghost use Rattle.ded_polygon.specs.Ranges.{IsShortSide};
ghost use Rattle.std.specs.List.{list_all};
ghost use Rattle.ded_model.specs.Point.{same_slot};
ghost use Rattle.ded_polygon.specs.Closures.{MentionsOnly, MentionOnly, IsInRange, AreInRange};
ghost use Rattle.ded_polygon.specs.Rows.{half_plane, half_planes, by_op};

use crate::side::PlaneSide;
use ded_model::memory::{NoMemory, Refused};
use ded_model::row::{Row, RowOp};
use ded_model::slot::Slot;
use std::alloc::Global;

/// Whether the rows mention no other slot than x and y.
pub fn mention_only(rows: &[Row], x: Slot, y: Slot) -> bool
    ensures { IsTrue result ↔ MentionOnly x y rows.now }
{
    for row in rows {
        if !mentions_only(row, x, y) {
            return false;
        }
    }
    true
}

/// Whether the row mentions no other slot than x and y.
fn mentions_only(row: &Row, x: Slot, y: Slot) -> bool
    ensures { IsTrue result ↔ MentionsOnly x y row.now }
{
    are_of(row.coefs.list(), x, y)
}

/// Whether the slots of the pairs are none but x and y.
fn are_of(list: &[(Slot, i128)], x: Slot, y: Slot) -> bool
    ensures { result ≡ list_all (λ c. same_slot c.0 x || same_slot c.0 y) list.now }
{
    list.iter()
        .all(|entry| entry.0.is_same(x) || entry.0.is_same(y))
}

/// The half planes of the rows, an equality as two.
///
/// # Errors
/// `Wide` only where a number of a row is beyond the exact range; otherwise out of memory.
pub(crate) fn sides(
    alloc: Global,
    rows: &[Row],
    x: Slot,
    y: Slot,
) -> Result<Vec<PlaneSide>, Refused>
    ensures sides { IfOk result (λ sides. sides.items ≡ half_planes x y rows.now) }
    ensures wide { IsErrOf result Wide → AreInRange x y rows.now → ⊥ }
{
    let mut sides = Vec::new(alloc);
    for row in rows {
        let Some(side) = side_of(row, x, y) else {
            return Err(Refused::Wide);
        };
        add(&mut sides, row.op, side)?;
    }
    Ok(sides)
}

/// The half plane of the row, read by `<=`. None where a number is beyond the exact range.
fn side_of(row: &Row, x: Slot, y: Slot) -> Option<PlaneSide>
    ensures { MatchOption result (IsInRange x y row.now → ⊥) (λ s. s ≡ half_plane x y row.now) }
{
    short_side(row.coefs.at(x), row.coefs.at(y), row.constant)
}

/// The half plane of these numbers. None where one is beyond the exact range.
fn short_side(a: i128, b: i128, c: i128) -> Option<PlaneSide>
    ensures { MatchOption result (IsShortSide (record { a = a; b = b; c = c })
        → ⊥) (λ s. s ≡ record { a = a; b = b; c = c }) }
{
    if !is_coefficient(a) {
        return None;
    }
    if !is_coefficient(b) {
        return None;
    }
    if !is_constant(c) {
        return None;
    }
    Some(PlaneSide { a, b, c })
}

/// Whether the number is below 2 ^ 31 in size.
fn is_coefficient(a: i128) -> bool
    ensures { IsTrue result ↔ IsWithin 31 a }
{
    a.unsigned_abs() < 1 << 31
}

/// Whether the number is below 2 ^ 62 in size.
fn is_constant(c: i128) -> bool
    ensures { IsTrue result ↔ IsWithin 62 c }
{
    c.unsigned_abs() < 1 << 62
}

/// Adds the half planes of a row by the op.
fn add(sides: &mut Vec<PlaneSide>, op: RowOp, side: PlaneSide) -> Result<(), NoMemory>
    ensures { OnOk result (sides.new.items ≡ sides.old.items ++ by_op op side) }
{
    sides.push(side)?;
    match op {
        RowOp::Zero => sides.push(side.opposite())?,
        RowOp::AtMost | RowOp::Below => {}
    }
    Ok(())
}
