//! The bounds of a relation's rational columns.
ghost use Rattle.std.specs.Prelude.{◌≡◌};
ghost use Rattle.ded_io.specs.Causes.{HasCause};
ghost use Rattle.ded_model.specs.declared.slot.Sort.TheVariants.{Rat};
ghost use Rattle.ded_model.specs.Point.{same_sort};
ghost use Rattle.ded_io.specs.Devices.{AddsAll};
ghost use Rattle.ded_print.specs.Boxes.{box_text, lower_text, span_line, spans_text, upper_text};
ghost use Rattle.ded_print.specs.Gathering.{output, Puts};
ghost use Rattle.ded_print.specs.Lines.{line_text};
ghost use Rattle.ded_print.specs.Numbers.{fraction_text, lowest_text};

use crate::gathered::Gathered;
use crate::naming::name_bytes;
use crate::number::put_integer;
use crate::tuple::columns_of;
use ded_io::{Failed, Sink, send};
use ded_model::bound::{Bound, BoxReply, Frac};
use ded_model::name::{Column, Heading, Name};
use ded_model::slot::Sort;
use ded_num::{gcd, quotient};

/// Prints the bounds of each rational column of the heading, or that there is no point or no such column.
///
/// # Errors
/// `Failed` only where the sink's count of faults rose.
pub fn print_box<K: Sink>(heading: &Heading, reply: &BoxReply, sink: &mut K) -> Result<(), Failed>
    ensures bytes { AddsAll (K.contents sink.old) (K.contents sink.new) result (box_text heading.now reply.now) }
    ensures cause { HasCause (K.faults sink.old) (K.faults sink.new) result }
{
    match reply {
        BoxReply::Nowhere => send(sink, b"empty\n"),
        BoxReply::NoRational => send(sink, b"no rational column\n"),
        BoxReply::Spans(spans) => print_spans(columns_of(heading), &spans.list, sink),
    }
}

/// Prints the bounds of each rational column.
fn print_spans<K: Sink>(
    columns: &[Column],
    spans: &[(Bound, Bound)],
    sink: &mut K,
) -> Result<(), Failed>
    ensures bytes { AddsAll (K.contents sink.old) (K.contents sink.new) result (spans_text columns.now spans.now) }
    ensures cause { HasCause (K.faults sink.old) (K.faults sink.new) result }
{
    let mut gathered = Gathered::new();
    put_spans(columns, spans, &mut gathered, sink);
    gathered.finish(sink)
}

/// Puts one line for each rational column.
fn put_spans<K: Sink>(
    columns: &[Column],
    spans: &[(Bound, Bound)],
    gathered: &mut Gathered,
    sink: &mut K,
)
    ensures { Puts
        (output (K.contents sink.old) (K.faults sink.old) gathered.old)
        (output (K.contents sink.new) (K.faults sink.new) gathered.new)
        (spans_text columns.now spans.now) }
{
    let mut next = 0;
    for column in columns {
        if is_rational(column) && next < spans.len() {
            put_span(&column.name, spans[next], gathered, sink);
            next += 1;
        }
    }
}

/// Whether the column ranges over the rationals.
fn is_rational(column: &Column) -> bool
    ensures { result ≡ same_sort column.now.sort Rat }
{
    matches!(column.sort, Sort::Rat)
}

/// Puts the bounds of a column on a line.
fn put_span<K: Sink>(name: &Name, span: (Bound, Bound), gathered: &mut Gathered, sink: &mut K)
    ensures { Puts
        (output (K.contents sink.old) (K.faults sink.old) gathered.old)
        (output (K.contents sink.new) (K.faults sink.new) gathered.new)
        (line_text (span_line name.now span)) }
{
    gathered.put(sink, name_bytes(name));
    gathered.put(sink, b" in ");
    put_lower(span.0, gathered, sink);
    gathered.put(sink, b", ");
    put_upper(span.1, gathered, sink);
    gathered.put(sink, b"\n");
}

/// Puts a lower bound after its bracket.
fn put_lower<K: Sink>(bound: Bound, gathered: &mut Gathered, sink: &mut K)
    ensures { Puts
        (output (K.contents sink.old) (K.faults sink.old) gathered.old)
        (output (K.contents sink.new) (K.faults sink.new) gathered.new)
        (lower_text bound) }
{
    match bound {
        Bound::Infinite => gathered.put(sink, b"(-inf"),
        Bound::Excluded(value) => {
            gathered.put(sink, b"(");
            put_fraction(value, gathered, sink);
        }
        Bound::Included(value) => {
            gathered.put(sink, b"[");
            put_fraction(value, gathered, sink);
        }
    }
}

/// Puts an upper bound before its bracket.
fn put_upper<K: Sink>(bound: Bound, gathered: &mut Gathered, sink: &mut K)
    ensures { Puts
        (output (K.contents sink.old) (K.faults sink.old) gathered.old)
        (output (K.contents sink.new) (K.faults sink.new) gathered.new)
        (upper_text bound) }
{
    match bound {
        Bound::Infinite => gathered.put(sink, b"inf)"),
        Bound::Excluded(value) => {
            put_fraction(value, gathered, sink);
            gathered.put(sink, b")");
        }
        Bound::Included(value) => {
            put_fraction(value, gathered, sink);
            gathered.put(sink, b"]");
        }
    }
}

/// Puts a fraction in lowest terms.
pub(crate) fn put_fraction<K: Sink>(value: Frac, gathered: &mut Gathered, sink: &mut K)
    ensures { Puts
        (output (K.contents sink.old) (K.faults sink.old) gathered.old)
        (output (K.contents sink.new) (K.faults sink.new) gathered.new)
        (fraction_text value) }
{
    let by = gcd(value.num, value.den);
    put_lowest(
        quotient(value.num, by),
        quotient(value.den, by),
        gathered,
        sink,
    );
}

/// Puts a fraction that is in lowest terms: the numerator, and the denominator where it isn't 1.
fn put_lowest<K: Sink>(num: i128, den: i128, gathered: &mut Gathered, sink: &mut K)
    ensures { Puts
        (output (K.contents sink.old) (K.faults sink.old) gathered.old)
        (output (K.contents sink.new) (K.faults sink.new) gathered.new)
        (lowest_text num den) }
{
    put_integer(num, gathered, sink);
    if den.unsigned_abs() != 1 {
        gathered.put(sink, b"/");
        put_integer(den, gathered, sink);
    }
}
