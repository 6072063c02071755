//! How far a tuple goes.
ghost use Rattle.std.specs.Prelude.{◌≡◌, IfOk};
ghost use Rattle.ded_model.specs.Known.{IsTupleOver};
ghost use Rattle.ded_cells.specs.Extents.{IsExtent, span_at, span_of, spans_behind};

use ded_atoms::extended;
use ded_model::bound::{Bound, BoxReply, Spans};
use ded_model::memory::{NoMemory, Refused};
use ded_model::name::{Column, Heading};
use ded_model::slot::Sort;
use ded_model::tuple::Tuple;
use std::alloc::{AllocError, Global};

/// How far a tuple goes in the rational columns of a heading.
#[derive(Drop)]
pub enum Extent {
    /// It holds nowhere.
    Nowhere,
    /// It holds somewhere, and within these exact bounds, one pair for each rational column in order.
    Within(Spans),
    /// Numbers on the way to the bounds got too long.
    Wide,
}

/// How far the tuple goes.
///
/// # Errors
/// Out of memory.
pub fn extent_of(alloc: Global, heading: &Heading, tuple: &Tuple) -> Result<Extent, NoMemory>
    requires { IsTupleOver heading.now tuple.now }
    ensures { IfOk result (λ e. IsExtent heading.now tuple.now e) }
{
    match extended(alloc, heading, BoxReply::Nowhere, tuple) {
        Ok(BoxReply::Nowhere) => Ok(Extent::Nowhere),
        Ok(BoxReply::NoRational) => Ok(Extent::Within(Spans {
            list: Vec::new(alloc),
        })),
        Ok(BoxReply::Spans(spans)) => Ok(Extent::Within(spans)),
        Err(Refused::Wide) => Ok(Extent::Wide),
        Err(Refused::Memory) => Err(AllocError),
    }
}

/// The bounds of column number `number`, counted from 0, of these for the rational columns.
pub(crate) fn span_at(
    columns: &[Column],
    spans: &[(Bound, Bound)],
    number: u32,
) -> Option<(Bound, Bound)>
    ensures { result ≡ span_at columns.now spans.now number }
{
    let (column, columns_behind) = columns.split_first()?;
    if number == 0 {
        return span_of(column.sort, spans);
    }
    span_at(columns_behind, spans_behind(column.sort, spans), number - 1)
}

/// The bounds of a column of this sort that comes next, where it is rational.
fn span_of(sort: Sort, spans: &[(Bound, Bound)]) -> Option<(Bound, Bound)>
    ensures { result ≡ span_of sort spans.now }
{
    match sort {
        Sort::Text => None,
        Sort::Rat => spans.first().copied(),
    }
}

/// The bounds of the columns behind a column of this sort.
fn spans_behind(sort: Sort, spans: &[(Bound, Bound)]) -> &[(Bound, Bound)]
    ensures { result.now ≡ spans_behind sort spans.now }
{
    match sort {
        Sort::Text => spans,
        Sort::Rat => match spans.split_first() {
            Some((_, behind)) => behind,
            None => spans,
        },
    }
}
