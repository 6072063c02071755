//! Whether some point satisfies some rows, with any way of combining two of them.
ghost use Rattle.std.specs.Prelude.{◌≡◌, IfOk};
ghost use Rattle.std.specs.List.{AllByRecursion};
ghost use Rattle.ded_model.specs.Row.{row_holds, row_mentions};
ghost use Rattle.ded_model.specs.Lines.{row_lines};
ghost use Rattle.ded_theory.specs.declared.answers.Verdict.TheVariants.{Unknown};
ghost use Rattle.ded_theory.specs.Verdicts.{IsVerdict};
ghost use Rattle.ded_elimination.specs.LinearAtoms.{IsLinearAtom};
ghost use Rattle.ded_linear.specs.Told.{verdict_of};

use crate::bounding;
use crate::interval::{are_single, interval};
use crate::order::costliest;
use ded_elimination::Mixing;
use ded_model::memory::NoMemory;
use ded_model::row::Row;
use ded_model::slot::Slot;
use ded_simplex::told;
use ded_theory::{Span, Verdict};
use std::alloc::Global;

/// From how many rows on a point, or numbers that refute the rows, are looked for before anything is eliminated: fewer
/// rows are told sooner by eliminations.
const VERDICT_SEARCHED_FROM: usize = 6;

/// Whether some point satisfies all the rows. `Unknown` only where a number on the way got too long, which a mixing
/// that decides never lets happen.
///
/// # Errors
/// Out of memory.
pub fn refute<M: Mixing>(alloc: Global, rows: &[Row]) -> Result<Verdict, NoMemory>
    requires normal { AllByRecursion IsLinearAtom rows.now }
    requires rows { AllByRecursion M.rows rows.now }
    ensures verdict { IfOk result (λ v. IsVerdict row_holds row_mentions row_lines rows.now v) }
    ensures decided { M.decides → IfOk result (λ v. v ≡ Unknown → ⊥) }
{
    if are_single(rows) {
        return Ok(verdict_of(&interval(rows, Slot::default())));
    }
    if rows.len() < VERDICT_SEARCHED_FROM {
        return eliminated::<M>(alloc, rows);
    }
    match told(alloc, rows)? {
        Verdict::Unknown => eliminated::<M>(alloc, rows),
        Verdict::Empty => Ok(Verdict::Empty),
        Verdict::Inhabited => Ok(Verdict::Inhabited),
    }
}

/// The same, by eliminations alone.
fn eliminated<M: Mixing>(alloc: Global, rows: &[Row]) -> Result<Verdict, NoMemory>
    requires normal { AllByRecursion IsLinearAtom rows.now }
    requires rows { AllByRecursion M.rows rows.now }
    ensures verdict { IfOk result (λ v. IsVerdict row_holds row_mentions row_lines rows.now v) }
    ensures decided { M.decides → IfOk result (λ v. v ≡ Unknown → ⊥) }
{
    let last = costliest(alloc, rows)?;
    match bounding::eliminated::<M>(alloc, rows, last) {
        Ok(span) => Ok(verdict_of(&span)),
        Err(error) => Err(error),
    }
}

/// What the bounds of a slot tell of whether some point satisfies the rows.
fn verdict_of(span: &Span) -> Verdict
    ensures { result ≡ verdict_of span.now }
{
    match span {
        Span::Nothing => Verdict::Empty,
        Span::Exact(_, _) => Verdict::Inhabited,
        Span::Around(_, _) => Verdict::Unknown,
    }
}
