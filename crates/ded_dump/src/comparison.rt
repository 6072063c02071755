//! Comparisons.
ghost use Rattle.std.specs.Prelude.{◌≡◌, ◌++◌, OnOk};
ghost use Rattle.ded_model.specs.Goal.{goal_form};
ghost use Rattle.ded_print.specs.Tuples.{column_names};
ghost use Rattle.ded_dump.specs.Comparisons.{constant_text, stated_text, denied_text, row_comparison_text};
ghost use Rattle.ded_dump.specs.Comparisons.{compare_text, written_text, comparison_text};

use crate::goals::{below, row};
use crate::operand::put_operand;
use crate::text::Text;
use ded_model::formula::{CompareOp, Operand};
use ded_model::goal::Goal;
use ded_model::memory::NoMemory;
use ded_model::name::Heading;
use ded_model::row::Row;
use ded_tuple::is_true;

/// Puts a comparison, one of numbers by the row of its goal. The slots of the row are called as the places.
///
/// # Errors
/// Out of memory.
pub(crate) fn put_comparison(
    text: &mut Text,
    places: &Heading,
    left: &Operand,
    op: CompareOp,
    right: &Operand,
    goal: &Goal,
) -> Result<(), NoMemory>
    ensures { OnOk result (text.new ≡ text.old ++ comparison_text
        (column_names places.now) left.now op right.now (goal_form goal.now)) }
{
    match row(below(goal)) {
        Some(row) => put_row_comparison(text, places, op, row),
        None => put_written(text, left, op, right),
    }
}

/// Puts a comparison of numbers by its normal row.
fn put_row_comparison(
    text: &mut Text,
    places: &Heading,
    op: CompareOp,
    row: &Row,
) -> Result<(), NoMemory>
    ensures { OnOk result (text.new ≡ text.old ++ row_comparison_text (column_names places.now) op row.now) }
{
    match op {
        CompareOp::NotEqual => put_denied(text, places, row),
        CompareOp::Less
        | CompareOp::LessEq
        | CompareOp::Equal
        | CompareOp::GreaterEq
        | CompareOp::Greater => put_stated(text, places, row),
    }
}

/// Puts a row. One without coefficients is true or false.
fn put_stated(text: &mut Text, places: &Heading, row: &Row) -> Result<(), NoMemory>
    ensures { OnOk result (text.new ≡ text.old ++ stated_text (column_names places.now) row.now row.now.coefs) }
{
    if row.coefs.list().is_empty() {
        return text.put(constant_bytes(is_true(row)));
    }
    text.put_row(places, row)
}

/// Puts that a row of `=` doesn't hold. One without coefficients is true or false.
fn put_denied(text: &mut Text, places: &Heading, row: &Row) -> Result<(), NoMemory>
    ensures { OnOk result (text.new ≡ text.old ++ denied_text (column_names places.now) row.now row.now.coefs) }
{
    if row.coefs.list().is_empty() {
        return text.put(constant_bytes(!is_true(row)));
    }
    text.put_unlike(places, row)
}

/// A comparison that is true, or false, wherever it stands.
fn constant_bytes(holds: bool) -> &'static [u8]
    ensures { result.now ≡ constant_text holds }
{
    if holds { b"0 = 0" } else { b"0 < 0" }
}

/// Puts a comparison as it was written.
fn put_written(
    text: &mut Text,
    left: &Operand,
    op: CompareOp,
    right: &Operand,
) -> Result<(), NoMemory>
    ensures { OnOk result (text.new ≡ text.old ++ written_text left.now op right.now) }
{
    put_operand(text, left)?;
    text.put(compare_bytes(op))?;
    put_operand(text, right)
}

/// The sign of a comparison between blanks.
fn compare_bytes(op: CompareOp) -> &'static [u8]
    ensures { result.now ≡ compare_text op }
{
    match op {
        CompareOp::Less => b" < ",
        CompareOp::LessEq => b" <= ",
        CompareOp::Equal => b" = ",
        CompareOp::NotEqual => b" != ",
        CompareOp::GreaterEq => b" >= ",
        CompareOp::Greater => b" > ",
    }
}
