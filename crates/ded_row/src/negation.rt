//! The negation of a row.
ghost use Rattle.std.specs.Prelude.{◌≡◌, ◌<◌, false, not, IfOk};
ghost use Rattle.ded_model.specs.declared.slot.Slot.{Slot};
ghost use Rattle.ded_model.specs.declared.row.RowOp.TheVariants.{Below};
ghost use Rattle.ded_model.specs.Point.{Point};
ghost use Rattle.ded_model.specs.Coefs.{AreCoefs};
ghost use Rattle.ded_model.specs.Row.{row_holds, row_mentions};
ghost use Rattle.ded_model.specs.Normal.{IsNormalRow};
ghost use Rattle.ded_model.specs.Lines.{row_lines};
ghost use Rattle.ded_row.specs.Multiples.{turned, with_op};
ghost use Rattle.ded_model.specs.Negation.{EachPiece, some_piece_holds, both_pieces_hold};
ghost use Rattle.ded_row.specs.Negation.{negated_row};

use crate::lowest::truth_row;
use ded_model::memory::NoMemory;
use ded_model::row::{Coefs, Row, RowOp};
use ded_model::tuple::Negated;

/// The negation of a normal row: normal rows that exclude each other and hold together exactly where the row doesn't.
/// They mention its slots and have its lines. An equality gives two rows, each other row gives one.
///
/// # Errors
/// Out of memory.
pub fn negate(row: &Row) -> Result<Negated<Row>, NoMemory>
    requires normal { IsNormalRow row.now }
    ensures value { IfOk result (λ n. n ≡ negated_row row.now) }
    ensures exact { IfOk result (λ n. (p : Point) → 0 < p.den
        → some_piece_holds row_holds n p ≡ not (row_holds row.now p)) }
    ensures disjoint { IfOk result (λ n. (p : Point) → both_pieces_hold row_holds n p ≡ false) }
    ensures normal { IfOk result (λ n. EachPiece IsNormalRow n) }
    ensures mentions { IfOk result (λ n. (s : Slot) → EachPiece (λ r. row_mentions r s ≡ row_mentions row.now s) n) }
    ensures lines { IfOk result (λ n. EachPiece (λ r. row_lines r ≡ row_lines row.now) n) }
{
    negation_of(row)
}

/// The pieces of the negation of a row, by the op of the row.
fn negation_of(row: &Row) -> Result<Negated<Row>, NoMemory>
    ensures value { IfOk result (λ n. n ≡ negated_row row.now) }
    ensures coefs { AreCoefs row.now.coefs }
{
    if row.coefs.list().is_empty() {
        let none = Coefs::new(row.coefs.allocator());
        return Ok(Negated::One(truth_row(none, !row.op.meets_zero(row.constant))));
    }
    match row.op {
        RowOp::Zero => Ok(Negated::Two(below(row)?, turned(row, RowOp::Below)?)),
        RowOp::AtMost => Ok(Negated::One(turned(row, RowOp::Below)?)),
        RowOp::Below => Ok(Negated::One(turned(row, RowOp::AtMost)?)),
    }
}

/// The row's sum, compared as below zero.
fn below(row: &Row) -> Result<Row, NoMemory>
    ensures { IfOk result (λ r. r ≡ with_op Below row.now) }
{
    Ok(Row {
        coefs: row.coefs.copy()?,
        constant: row.constant,
        op: RowOp::Below,
    })
}

/// The row's sum with all signs turned, compared by `op`.
fn turned(row: &Row, op: RowOp) -> Result<Row, NoMemory>
    ensures { IfOk result (λ r. r ≡ with_op op (turned row.now)) }
{
    let mut coefs = row.coefs.copy()?;
    coefs.divide(-1);
    Ok(Row {
        coefs,
        constant: -row.constant,
        op,
    })
}
