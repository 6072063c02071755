//! The interval of one slot's values, where each row mentions at most one slot.
ghost use Rattle.std.specs.Prelude.{◌≡◌, ◌≢◌, pos, true};
ghost use Rattle.std.specs.List.{AllByRecursion, list_all, list_any};
ghost use Rattle.ded_num.specs.Length.{IsShort};
ghost use Rattle.ded_model.specs.declared.bound.Bound.TheVariants.{Infinite};
ghost use Rattle.ded_model.specs.Row.{row_holds, row_mentions};
ghost use Rattle.ded_model.specs.Bound.{lower, upper};
ghost use Rattle.ded_model.specs.Lines.{row_lines};
ghost use Rattle.ded_theory.specs.Verdicts.{IsSpan, IsVerdict, IsAround};
ghost use Rattle.ded_elimination.specs.LinearAtoms.{IsLinearAtom};
ghost use Rattle.ded_box.specs.Intervals.{end_of, may_meet};
ghost use Rattle.ded_linear.specs.Intervals.{root_of, faces, row_bound, narrowed, is_single, row_fits, same_place};
ghost use Rattle.ded_linear.specs.Told.{verdict_of};

use ded_box::{Side, may_meet, narrower};
use ded_model::bound::{Bound, Frac};
use ded_model::row::{Row, RowOp};
use ded_model::slot::Slot;
use ded_theory::Span;

/// Whether each row mentions at most one slot.
pub fn are_single(rows: &[Row]) -> bool
    ensures { result ≡ list_all is_single rows.now }
{
    rows.iter().all(|row| row.coefs.list().len() < 2)
}

/// The exact bounds of a slot over all points that satisfy rows each of which mentions at most one slot. It does not
/// allocate.
pub fn interval(rows: &[Row], slot: Slot) -> Span
    requires normal { AllByRecursion IsLinearAtom rows.now }
    requires single { list_all is_single rows.now ≡ true }
    ensures span { IsSpan row_holds row_mentions row_lines rows.now slot result }
    ensures verdict { IsVerdict row_holds row_mentions row_lines rows.now (verdict_of result) }
    ensures exact { IsAround result → ⊥ }
{
    if !all_fit(rows, slot) {
        return Span::Nothing;
    }
    let lower = bound_of(Side::Lower, rows, slot);
    let upper = bound_of(Side::Upper, rows, slot);
    if may_meet(&lower, &upper) {
        Span::Exact(lower, upper)
    } else {
        Span::Nothing
    }
}

/// Whether the rows without slots hold, and each slot but the one has some value. A slot is looked at in the first row
/// that mentions it.
fn all_fit(rows: &[Row], slot: Slot) -> bool
    ensures { result ≡ list_all (row_fits rows.now slot) rows.now }
{
    for i in 0..rows.len() {
        let row = &rows[i];
        if !has_place(&rows[..i], row) && !row_fits(rows, slot, row) {
            return false;
        }
    }
    true
}

/// Whether the row's first slot is that of one of the rows.
fn has_place(rows: &[Row], row: &Row) -> bool
    ensures { result ≡ list_any (λ q. same_place q row.now) rows.now }
{
    rows.iter().any(|other| same_place(other, row))
}

/// Whether two rows have the same first slot.
fn same_place(a: &Row, b: &Row) -> bool
    ensures { result ≡ same_place a.now b.now }
{
    match (a.coefs.list(), b.coefs.list()) {
        ([(first, _), ..], [(second, _), ..]) => first.is_same(*second),
        _ => false,
    }
}

/// Whether a row without slots holds, and the row's slot, where it is another, has some value.
fn row_fits(rows: &[Row], slot: Slot, row: &Row) -> bool
    ensures { result ≡ row_fits rows.now slot row.now }
{
    match row.coefs.list() {
        [] => row.op.meets_zero(row.constant),
        [(other, _), ..] => other.is_same(slot) || has_value(rows, *other),
    }
}

/// Whether the bounds that the rows give the slot leave a value between them.
fn has_value(rows: &[Row], slot: Slot) -> bool
    ensures { result ≡ may_meet (narrowed lower slot Infinite rows.now) (narrowed upper slot Infinite rows.now) }
{
    may_meet(
        &bound_of(Side::Lower, rows, slot),
        &bound_of(Side::Upper, rows, slot),
    )
}

/// The bound that all the rows together give the slot on the side.
fn bound_of(side: Side, rows: &[Row], slot: Slot) -> Bound
    ensures { result ≡ narrowed (end_of side) slot Infinite rows.now }
{
    let mut bound = Bound::Infinite;
    for row in rows {
        bound = narrower(side, bound, row_bound(side, row, slot));
    }
    bound
}

/// The bound that a row gives the slot on the side, none where it does not mention the slot.
fn row_bound(side: Side, row: &Row, slot: Slot) -> Bound
    ensures { result ≡ row_bound (end_of side) slot row.now }
{
    let a = row.coefs.at(slot);
    match row.op {
        _ if a == 0 => Bound::Infinite,
        RowOp::Zero => Bound::Included(root_of(a, row.constant)),
        RowOp::AtMost if faces(side, a) => Bound::Included(root_of(a, row.constant)),
        RowOp::Below if faces(side, a) => Bound::Excluded(root_of(a, row.constant)),
        _ => Bound::Infinite,
    }
}

/// Whether an inequality with the coefficient bounds its slot on the side.
fn faces(side: Side, a: i128) -> bool
    ensures { result ≡ faces (end_of side) a }
{
    match side {
        Side::Lower => a < 0,
        Side::Upper => a > 0,
    }
}

/// Where `a` times the slot plus the constant is 0.
fn root_of(a: i128, constant: i128) -> Frac
    requires nonzero { a ≢ pos 0 }
    requires short_a { IsShort a }
    requires short_constant { IsShort constant }
    ensures { result ≡ root_of a constant }
{
    if a < 0 {
        Frac {
            num: constant,
            den: -a,
        }
    } else {
        Frac {
            num: -constant,
            den: a,
        }
    }
}
