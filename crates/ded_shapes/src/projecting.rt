//! Tuples over two of their columns.
ghost use Rattle.std.specs.Prelude.{◌≡◌, [], ◌∷◌, IfOk, IsErrOf};
ghost use Rattle.std.specs.List.{AllByRecursion};
ghost use Rattle.ded_model.specs.declared.memory.Refused.TheVariants.{Wide};
ghost use Rattle.ded_model.specs.declared.slot.Sort.TheVariants.{Rat};
ghost use Rattle.ded_model.specs.Cell.{conj_holds};
ghost use Rattle.ded_model.specs.Lines.{row_lines};
ghost use Rattle.ded_model.specs.Row.{row_holds, row_mentions, tuple_holds};
ghost use Rattle.ded_model.specs.Width.{IsNarrowList};
ghost use Rattle.ded_theory.specs.Conjunctions.{IsWide};
ghost use Rattle.ded_elimination.specs.LinearAtoms.{IsLinearAtom};
ghost use Rattle.ded_shapes.specs.Projections.{IsProjection, IsWithout};

use crate::parts::{mention, other_slots, rows_of, texts_of};
use ded_linear::Linear;
use ded_model::memory::Refused;
use ded_model::row::Row;
use ded_model::slot::Slot;
use ded_model::tuple::Tuple;
use ded_theme::Theme;
use ded_theory::{Eliminated, Theory, Verdict};
use std::alloc::Global;

/// What a tuple is over two rational columns.
#[derive(Drop)]
pub enum Projection {
    /// The tuple holds nowhere.
    Nowhere,
    /// The tuple holds somewhere, and these rows, over the two columns alone, hold at a point exactly where it does
    /// with some values of all other columns.
    Rows(Vec<Row>),
}

/// The tuple over the rational columns of the slots x and y alone, whatever the values of its other columns are.
///
/// # Errors
/// `Wide` only where the tuple isn't narrow; otherwise out of memory.
pub fn projected(alloc: Global, tuple: &Tuple, x: Slot, y: Slot) -> Result<Projection, Refused>
    requires x_rational { x.sort ≡ Rat }
    requires y_rational { y.sort ≡ Rat }
    ensures is { IfOk result (λ v. IsProjection x y (tuple_holds tuple.now) v) }
    ensures wide { IsErrOf result Wide → IsNarrowList tuple.now → ⊥ }
{
    let texts = texts_of(alloc, &tuple.atoms)?;
    if let Verdict::Empty = Theme::refute(alloc, &texts)? {
        return Ok(Projection::Nowhere);
    }
    let rows = rows_of(alloc, &tuple.atoms)?;
    rows_projected(alloc, rows, x, y)
}

/// The rows over x and y alone.
///
/// # Errors
/// `Wide` only where the rows are wide; otherwise out of memory.
fn rows_projected(alloc: Global, rows: Vec<Row>, x: Slot, y: Slot) -> Result<Projection, Refused>
    requires normal { AllByRecursion IsLinearAtom rows.items }
    ensures is { IfOk result (λ v. IsProjection x y (conj_holds row_holds rows.items) v) }
    ensures wide { IsErrOf result Wide → IsWide row_mentions row_lines rows.items }
{
    let others = other_slots(alloc, &rows, x, y)?;
    let Eliminated::Conj(left) = without(alloc, rows, &others)? else {
        return Ok(Projection::Nowhere);
    };
    match Linear::refute(alloc, &left)? {
        Verdict::Empty => Ok(Projection::Nowhere),
        Verdict::Inhabited => Ok(Projection::Rows(left)),
        Verdict::Unknown => Err(Refused::Wide),
    }
}

/// What is left of the rows without the slots.
///
/// # Errors
/// `Wide` only where the rows are wide; otherwise out of memory.
fn without(alloc: Global, rows: Vec<Row>, slots: &[Slot]) -> Result<Eliminated<Row>, Refused>
    requires normal { AllByRecursion IsLinearAtom rows.items }
    ensures is { IfOk result (λ e. IsWithout slots.now rows.items e) }
    ensures wide { IsErrOf result Wide → IsWide row_mentions row_lines rows.items }
{
    let Some((slot, behind)) = slots.split_first() else {
        return Ok(Eliminated::Conj(rows));
    };
    match without_slot(alloc, rows, *slot)? {
        Eliminated::Never => Ok(Eliminated::Never),
        Eliminated::Conj(left) => without(alloc, left, behind),
    }
}

/// What is left of the rows without the slot.
///
/// # Errors
/// As [`without`].
fn without_slot(alloc: Global, rows: Vec<Row>, slot: Slot) -> Result<Eliminated<Row>, Refused>
    requires normal { AllByRecursion IsLinearAtom rows.items }
    ensures is { IfOk result (λ e. IsWithout (slot ∷ []) rows.items e) }
    ensures wide { IsErrOf result Wide → IsWide row_mentions row_lines rows.items }
{
    if !mention(&rows, slot) {
        return Ok(Eliminated::Conj(rows));
    }
    Linear::eliminate(alloc, &rows, slot)
}
