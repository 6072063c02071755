//! Lists of numbered tuples.
ghost use Rattle.std.specs.Prelude.{codes, length, map};
ghost use Rattle.ded_io.specs.Causes.{HasCause};
ghost use Rattle.ded_io.specs.Devices.{AddsAll};
ghost use Rattle.ded_print.specs.Gathering.{output, Puts};
ghost use Rattle.ded_print.specs.Lines.{counted_text, line_text, lines_text};
ghost use Rattle.ded_print.specs.Numbers.{number_text};
ghost use Rattle.ded_print.specs.Tuples.{stored_line, stored_text};

use crate::gathered::Gathered;
use crate::naming::{ColumnNames, SlotNames};
use crate::number::put_natural;
use crate::tuple::{atoms_of, columns_of, put_atoms};
use ded_io::{Failed, Sink};
use ded_model::name::Heading;
use ded_model::tuple::Tuple;

/// Prints the tuples of a relation with their numbers.
///
/// # Errors
/// `Failed` only where the sink's count of faults rose.
pub fn print_stored<K: Sink>(
    heading: &Heading,
    stored: &[(u32, Tuple)],
    sink: &mut K,
) -> Result<(), Failed>
    ensures bytes { AddsAll (K.contents sink.old) (K.contents sink.new) result (stored_text heading.now stored.now) }
    ensures cause { HasCause (K.faults sink.old) (K.faults sink.new) result }
{
    let mut gathered = Gathered::new();
    let names = ColumnNames::new(columns_of(heading));
    put_stored(stored, &names, &mut gathered, sink);
    gathered.finish(sink)
}

/// Puts the tuples of a relation: their count, the numbered tuples, and the end.
fn put_stored<N: SlotNames, K: Sink>(
    stored: &[(u32, Tuple)],
    names: &N,
    gathered: &mut Gathered,
    sink: &mut K,
)
    ensures { Puts
        (output (K.contents sink.old) (K.faults sink.old) gathered.old)
        (output (K.contents sink.new) (K.faults sink.new) gathered.new)
        (counted_text (codes "tuples") (number_text (length stored.now))
        (map (stored_line (N.names names.now)) stored.now)) }
{
    gathered.put(sink, b"tuples ");
    put_natural(stored.len() as u64, gathered, sink);
    gathered.put(sink, b"\n");
    put_stored_lines(stored, names, gathered, sink);
    gathered.put(sink, b"end\n");
}

/// Puts one line for each numbered tuple.
fn put_stored_lines<N: SlotNames, K: Sink>(
    stored: &[(u32, Tuple)],
    names: &N,
    gathered: &mut Gathered,
    sink: &mut K,
)
    ensures { Puts
        (output (K.contents sink.old) (K.faults sink.old) gathered.old)
        (output (K.contents sink.new) (K.faults sink.new) gathered.new)
        (lines_text (map (stored_line (N.names names.now)) stored.now)) }
{
    for tuple in stored {
        put_stored_line(tuple, names, gathered, sink);
    }
}

/// Puts a tuple's number and the tuple on a line.
fn put_stored_line<N: SlotNames, K: Sink>(
    numbered: &(u32, Tuple),
    names: &N,
    gathered: &mut Gathered,
    sink: &mut K,
)
    ensures { Puts
        (output (K.contents sink.old) (K.faults sink.old) gathered.old)
        (output (K.contents sink.new) (K.faults sink.new) gathered.new)
        (line_text (stored_line (N.names names.now) numbered.now)) }
{
    put_natural(u64::from(numbered.0), gathered, sink);
    gathered.put(sink, b" ");
    put_atoms(atoms_of(&numbered.1), names, gathered, sink);
    gathered.put(sink, b"\n");
}
