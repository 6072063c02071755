//! The order of rows.
ghost use Rattle.std.specs.Prelude.{◌≡◌};
ghost use Rattle.ded_model.specs.Coefs.{AreCoefs};
ghost use Rattle.ded_model.specs.Normal.{row_order, coefs_order, op_place};

use crate::merging::next_slot;
use ded_model::row::{Row, RowOp};
use ded_model::slot::Slot;
use std::cmp::Ordering;

/// The order of two rows: by coefficients slot by slot from number 0 upwards, an absent one counting as 0, then by
/// constant, then by op as `=`, `<=`, `<`. It does not allocate.
pub fn order(a: &Row, b: &Row) -> Ordering
    ensures { result ≡ row_order a.now b.now }
{
    order_coefs(a.coefs.list(), b.coefs.list())
        .then(a.constant.cmp(&b.constant))
        .then(place(a.op).cmp(&place(b.op)))
}

/// The order of two lists of coefficients.
fn order_coefs(xs: &[(Slot, i128)], ys: &[(Slot, i128)]) -> Ordering
    requires xs { AreCoefs xs.now }
    requires ys { AreCoefs ys.now }
    ensures { result ≡ coefs_order xs.now ys.now }
{
    let mut i = 0;
    let mut j = 0;
    while i < xs.len() || j < ys.len() {
        let next = next_slot(xs, i, ys, j);
        let here = next.a.cmp(&next.b);
        if here.is_ne() {
            return here;
        }
        i = next.i;
        j = next.j;
    }
    Ordering::Equal
}

/// The place of an op in the order of ops.
fn place(op: RowOp) -> u8
    ensures { result ≡ op_place op }
{
    match op {
        RowOp::Zero => 0,
        RowOp::AtMost => 1,
        RowOp::Below => 2,
    }
}
