//! Lists of tuples.
ghost use Rattle.std.specs.Prelude.{◌≡◌, codes, length, map};
ghost use Rattle.ded_io.specs.Causes.{HasCause};
ghost use Rattle.ded_io.specs.Devices.{AddsAll};
ghost use Rattle.ded_print.specs.Gathering.{output, Puts};
ghost use Rattle.ded_print.specs.Lines.{counted_text, line_text, lines_text};
ghost use Rattle.ded_print.specs.Numbers.{number_text};
ghost use Rattle.ded_print.specs.Tuples.{tuple_text, answer_text};

use crate::gathered::Gathered;
use crate::naming::{ColumnNames, SlotNames};
use crate::number::put_natural;
use crate::tuple::{atoms_of, columns_of, put_atoms};
use ded_io::{Failed, Sink};
use ded_model::answer::Answer;
use ded_model::tuple::{Tuple, Tuples};

/// Prints an answer.
///
/// # Errors
/// `Failed` only where the sink's count of faults rose.
pub fn print_answer<K: Sink>(answer: &Answer, sink: &mut K) -> Result<(), Failed>
    ensures bytes { AddsAll (K.contents sink.old) (K.contents sink.new) result
        (answer_text answer.now.heading answer.now.tuples) }
    ensures cause { HasCause (K.faults sink.old) (K.faults sink.new) result }
{
    let mut gathered = Gathered::new();
    let names = ColumnNames::new(columns_of(&answer.heading));
    put_answer(tuples_of(&answer.tuples), &names, &mut gathered, sink);
    gathered.finish(sink)
}

/// The tuples of the list.
fn tuples_of(tuples: &Tuples) -> &[Tuple]
    ensures { result.now ≡ tuples.now }
{
    tuples.list.as_slice()
}

/// Puts an answer: the count of its tuples, the tuples, and the end.
fn put_answer<N: SlotNames, K: Sink>(
    tuples: &[Tuple],
    names: &N,
    gathered: &mut Gathered,
    sink: &mut K,
)
    ensures { Puts
        (output (K.contents sink.old) (K.faults sink.old) gathered.old)
        (output (K.contents sink.new) (K.faults sink.new) gathered.new)
        (counted_text (codes "answer") (number_text (length tuples.now))
        (map (tuple_text (N.names names.now)) tuples.now)) }
{
    gathered.put(sink, b"answer ");
    put_natural(tuples.len() as u64, gathered, sink);
    gathered.put(sink, b"\n");
    put_tuple_lines(tuples, names, gathered, sink);
    gathered.put(sink, b"end\n");
}

/// Puts one line for each tuple.
fn put_tuple_lines<N: SlotNames, K: Sink>(
    tuples: &[Tuple],
    names: &N,
    gathered: &mut Gathered,
    sink: &mut K,
)
    ensures { Puts
        (output (K.contents sink.old) (K.faults sink.old) gathered.old)
        (output (K.contents sink.new) (K.faults sink.new) gathered.new)
        (lines_text (map (tuple_text (N.names names.now)) tuples.now)) }
{
    for tuple in tuples {
        put_tuple_line(tuple, names, gathered, sink);
    }
}

/// Puts a tuple on a line.
fn put_tuple_line<N: SlotNames, K: Sink>(
    tuple: &Tuple,
    names: &N,
    gathered: &mut Gathered,
    sink: &mut K,
)
    ensures { Puts
        (output (K.contents sink.old) (K.faults sink.old) gathered.old)
        (output (K.contents sink.new) (K.faults sink.new) gathered.new)
        (line_text (tuple_text (N.names names.now) tuple.now)) }
{
    put_atoms(atoms_of(tuple), names, gathered, sink);
    gathered.put(sink, b"\n");
}
