//! Cells of rational columns.
ghost use Rattle.std.specs.Prelude.{◌≡◌, ◌∷◌, ◌++◌, codes, OnOk};
ghost use Rattle.ded_cells.specs.Decimals.{value_text};
ghost use Rattle.ded_cells.specs.Spans.{lower_text, span_text, upper_text, value_in};

use crate::decimal::put_value;
use ded_box::may_meet;
use ded_dump::Text;
use ded_model::bound::{Bound, Frac};
use ded_model::memory::NoMemory;
use ded_model::name::Name;

/// Puts the span of a column: one value, or its bounds.
///
/// # Errors
/// Out of memory.
pub(crate) fn put_span(text: &mut Text, name: &Name, span: (Bound, Bound)) -> Result<(), NoMemory>
    ensures { OnOk result (text.new ≡ text.old ++ span_text name.now span.0 span.1) }
{
    match value_in(span.0, span.1) {
        Some(value) => put_one(text, name, value),
        None => put_interval(text, name, span),
    }
}

/// The one value between the bounds, where there is one alone.
pub(crate) fn value_in(lower: Bound, upper: Bound) -> Option<Frac>
    ensures { result ≡ value_in lower upper }
{
    match lower {
        Bound::Infinite | Bound::Excluded(_) => None,
        Bound::Included(value) => {
            if may_meet(&Bound::Excluded(value), &upper) {
                None
            } else {
                Some(value)
            }
        }
    }
}

/// Puts that a column has one value.
fn put_one(text: &mut Text, name: &Name, value: Frac) -> Result<(), NoMemory>
    ensures { OnOk result (text.new ≡ text.old ++ (name.now ++ (61 ∷ value_text value))) }
{
    text.put_name(name)?;
    text.put(b"=")?;
    put_value(text, value)
}

/// Puts between which bounds a column is.
fn put_interval(text: &mut Text, name: &Name, span: (Bound, Bound)) -> Result<(), NoMemory>
    ensures { OnOk result (text.new ≡ text.old ++ (name.now
        ++ (codes " in " ++ (lower_text span.0 ++ (codes ", " ++ upper_text span.1))))) }
{
    text.put_name(name)?;
    text.put(b" in ")?;
    put_lower(text, span.0)?;
    text.put(b", ")?;
    put_upper(text, span.1)
}

/// Puts a lower bound after its bracket.
fn put_lower(text: &mut Text, bound: Bound) -> Result<(), NoMemory>
    ensures { OnOk result (text.new ≡ text.old ++ lower_text bound) }
{
    match bound {
        Bound::Infinite => text.put(b"(-inf"),
        Bound::Excluded(value) => {
            text.put(b"(")?;
            put_value(text, value)
        }
        Bound::Included(value) => {
            text.put(b"[")?;
            put_value(text, value)
        }
    }
}

/// Puts an upper bound before its bracket.
fn put_upper(text: &mut Text, bound: Bound) -> Result<(), NoMemory>
    ensures { OnOk result (text.new ≡ text.old ++ upper_text bound) }
{
    match bound {
        Bound::Infinite => text.put(b"inf)"),
        Bound::Excluded(value) => {
            put_value(text, value)?;
            text.put(b")")
        }
        Bound::Included(value) => {
            put_value(text, value)?;
            text.put(b"]")
        }
    }
}
