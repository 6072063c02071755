//! Parts of statements: rows, quoted texts and fractions.
ghost use Rattle.ded_io.specs.Causes.{HasCause};
ghost use Rattle.ded_io.specs.Devices.{AddsAll};
ghost use Rattle.ded_model.specs.Quoting.{quoted};
ghost use Rattle.ded_print.specs.Numbers.{fraction_text};
ghost use Rattle.ded_print.specs.Tuples.{column_names, row_text, unlike_text};

use crate::bounds::put_fraction;
use crate::gathered::Gathered;
use crate::naming::{ColumnNames, name_bytes};
use crate::row::{put_row, put_unlike};
use crate::theme::put_quoted;
use crate::tuple::columns_of;
use ded_io::{Failed, Sink};
use ded_model::bound::Frac;
use ded_model::name::{Heading, Name};
use ded_model::row::Row;

/// Prints a row over the columns of a heading.
///
/// # Errors
/// `Failed` only where the sink's count of faults rose.
pub fn print_row<K: Sink>(heading: &Heading, row: &Row, sink: &mut K) -> Result<(), Failed>
    ensures bytes { AddsAll (K.contents sink.old) (K.contents sink.new) result
        (row_text (column_names heading.now) row.now) }
    ensures cause { HasCause (K.faults sink.old) (K.faults sink.new) result }
{
    let mut gathered = Gathered::new();
    let names = ColumnNames::new(columns_of(heading));
    put_row(row, &names, &mut gathered, sink);
    gathered.finish(sink)
}

/// Prints a row over the columns of a heading with `!=` in the place of its sign.
///
/// # Errors
/// `Failed` only where the sink's count of faults rose.
pub fn print_unlike<K: Sink>(heading: &Heading, row: &Row, sink: &mut K) -> Result<(), Failed>
    ensures bytes { AddsAll (K.contents sink.old) (K.contents sink.new) result
        (unlike_text (column_names heading.now) row.now) }
    ensures cause { HasCause (K.faults sink.old) (K.faults sink.new) result }
{
    let mut gathered = Gathered::new();
    let names = ColumnNames::new(columns_of(heading));
    put_unlike(row, &names, &mut gathered, sink);
    gathered.finish(sink)
}

/// Prints a text between quotes, each quote inside it twice.
///
/// # Errors
/// `Failed` only where the sink's count of faults rose.
pub fn print_quoted<K: Sink>(text: &Name, sink: &mut K) -> Result<(), Failed>
    ensures bytes { AddsAll (K.contents sink.old) (K.contents sink.new) result (quoted text.now) }
    ensures cause { HasCause (K.faults sink.old) (K.faults sink.new) result }
{
    let mut gathered = Gathered::new();
    put_quoted(name_bytes(text), &mut gathered, sink);
    gathered.finish(sink)
}

/// Prints a fraction in lowest terms.
///
/// # Errors
/// `Failed` only where the sink's count of faults rose.
pub fn print_fraction<K: Sink>(value: Frac, sink: &mut K) -> Result<(), Failed>
    ensures bytes { AddsAll (K.contents sink.old) (K.contents sink.new) result (fraction_text value) }
    ensures cause { HasCause (K.faults sink.old) (K.faults sink.new) result }
{
    let mut gathered = Gathered::new();
    put_fraction(value, &mut gathered, sink);
    gathered.finish(sink)
}
