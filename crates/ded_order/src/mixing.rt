//! How two order rows are combined so that a slot falls out.
//!
//! Two rows of one slot leave no slot, and what is left says how their two bounds compare, which is told exactly for
//! numbers of any length. In every other combination one of the rows has two slots, with the coefficients 1 and -1, so
//! each product is one with 1, -1 or 0, and nothing gets longer.
ghost use Rattle.std.specs.Prelude.{◌≡◌, ◌≢◌, ◌&&◌, pos, true};
ghost use Rattle.ded_num.specs.Length.{IsShort};
ghost use Rattle.ded_model.specs.Coefs.{coef_at};
ghost use Rattle.ded_model.specs.Normal.{IsNormalRow};
ghost use Rattle.ded_row.specs.Mixing.{join_op};
ghost use Rattle.ded_linear.specs.Intervals.{is_single};
ghost use Rattle.ded_order.specs.OrderRows.{is_order_row};
ghost use Rattle.ded_order.specs.Comparing.{turned_with, bounds_order, sign_of, compared_row};

use ded_elimination::Mixing;
use ded_model::memory::Refused;
use ded_model::row::{Coefs, Row, RowOp};
use ded_model::slot::Slot;
use ded_num::cmp_frac;
use std::cmp::Ordering;

/// The combination of any two order rows, which is never refused for the length of its numbers.
pub struct Ordered {}

impl Mixing for Ordered {
    ghost rows = { λ r. is_order_row r ≡ true };

    ghost decides = { Unit {0} };

    fn mix(r1: &Row, r2: &Row, slot: Slot) -> Result<Row, Refused> {
        if are_alone(r1, r2) {
            Ok(compared(r1, r2, slot))
        } else {
            ded_row::mix(r1, r2, slot)
        }
    }
}

/// Whether each of two rows mentions at most one slot.
fn are_alone(r1: &Row, r2: &Row) -> bool
    ensures value { result ≡ (is_single r1.now && is_single r2.now) }
    ensures short { IsShort r1.now.constant × IsShort r2.now.constant }
{
    r1.coefs.list().len() < 2 && r2.coefs.list().len() < 2
}

/// What two rows that have the slot alone say together of their constants: the order of the two bounds, compared with
/// zero. It does not allocate.
fn compared(r1: &Row, r2: &Row, slot: Slot) -> Row
    requires nonzero_1 { coef_at r1.now.coefs slot ≢ pos 0 }
    requires nonzero_2 { coef_at r2.now.coefs slot ≢ pos 0 }
    ensures value { result ≡ compared_row slot r1.now r2.now }
    ensures normal { IsNormalRow result }
{
    let order = order_of(
        r1.coefs.at(slot),
        r1.constant,
        r2.coefs.at(slot),
        r2.constant,
    );
    ded_row::normal(Row {
        coefs: Coefs::new(r1.coefs.allocator()),
        constant: sign_of(order),
        op: joined(r1.op, r2.op),
    })
}

/// The order of `c / a` and `d / b`.
fn order_of(a: i128, c: i128, b: i128, d: i128) -> Ordering
    requires nonzero_a { a ≢ pos 0 }
    requires nonzero_b { b ≢ pos 0 }
    requires short_a { IsShort a }
    requires short_b { IsShort b }
    requires short_c { IsShort c }
    requires short_d { IsShort d }
    ensures { result ≡ bounds_order a c b d }
{
    cmp_frac(
        turned_with(a, c),
        turned_with(a, a),
        turned_with(b, d),
        turned_with(b, b),
    )
}

/// The number `z`, turned where `a` is negative.
fn turned_with(a: i128, z: i128) -> i128
    requires { IsShort z }
    ensures { result ≡ turned_with a z }
{
    if a < 0 { -z } else { z }
}

/// A number with the sign of a difference whose order is given.
fn sign_of(order: Ordering) -> i128
    ensures { result ≡ sign_of order }
{
    match order {
        Ordering::Less => -1,
        Ordering::Equal => 0,
        Ordering::Greater => 1,
    }
}

/// The op of a sum of two rows, from their ops.
fn joined(a: RowOp, b: RowOp) -> RowOp
    ensures { result ≡ join_op a b }
{
    match (a, b) {
        (RowOp::Zero, _) => b,
        (RowOp::Below, _) | (_, RowOp::Below) => RowOp::Below,
        _ => RowOp::AtMost,
    }
}
