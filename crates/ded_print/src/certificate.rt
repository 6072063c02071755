//! Certificates.
ghost use Rattle.std.specs.Prelude.{codes, length, map};
ghost use Rattle.ded_io.specs.Causes.{HasCause};
ghost use Rattle.ded_io.specs.Devices.{AddsAll};
ghost use Rattle.ded_print.specs.Certificates.{apart_text, entry_line, multipliers_text, proof_text};
ghost use Rattle.ded_print.specs.Gathering.{output, Puts};
ghost use Rattle.ded_print.specs.Lines.{counted_text, line_text, lines_text};
ghost use Rattle.ded_print.specs.Numbers.{number_text};

use crate::gathered::Gathered;
use crate::number::{put_integer, put_natural};
use ded_io::{Failed, Sink};
use ded_model::certificate::{Entry, Proof};

/// Prints certificates that two relations have no common point, a line for each pair of tuples.
///
/// # Errors
/// `Failed` only where the sink's count of faults rose.
pub fn print_apart<K: Sink>(list: &[Entry], sink: &mut K) -> Result<(), Failed>
    ensures bytes { AddsAll (K.contents sink.old) (K.contents sink.new) result (apart_text list.now) }
    ensures cause { HasCause (K.faults sink.old) (K.faults sink.new) result }
{
    let mut gathered = Gathered::new();
    put_apart(list, &mut gathered, sink);
    gathered.finish(sink)
}

/// Puts certificates: their count, the lines, and the end.
fn put_apart<K: Sink>(list: &[Entry], gathered: &mut Gathered, sink: &mut K)
    ensures { Puts
        (output (K.contents sink.old) (K.faults sink.old) gathered.old)
        (output (K.contents sink.new) (K.faults sink.new) gathered.new)
        (counted_text (codes "apart") (number_text (length list.now)) (map entry_line list.now)) }
{
    gathered.put(sink, b"apart ");
    put_natural(list.len() as u64, gathered, sink);
    gathered.put(sink, b"\n");
    put_entries(list, gathered, sink);
    gathered.put(sink, b"end\n");
}

/// Puts one line for each certificate.
fn put_entries<K: Sink>(list: &[Entry], gathered: &mut Gathered, sink: &mut K)
    ensures { Puts
        (output (K.contents sink.old) (K.faults sink.old) gathered.old)
        (output (K.contents sink.new) (K.faults sink.new) gathered.new)
        (lines_text (map entry_line list.now)) }
{
    for entry in list {
        put_entry(entry, gathered, sink);
    }
}

/// Puts the numbers of two tuples and what shows that they have no common point on a line.
fn put_entry<K: Sink>(entry: &Entry, gathered: &mut Gathered, sink: &mut K)
    ensures { Puts
        (output (K.contents sink.old) (K.faults sink.old) gathered.old)
        (output (K.contents sink.new) (K.faults sink.new) gathered.new)
        (line_text (entry_line entry.now)) }
{
    put_natural(entry.first, gathered, sink);
    gathered.put(sink, b" ");
    put_natural(entry.second, gathered, sink);
    gathered.put(sink, b" ");
    put_proof(&entry.proof, gathered, sink);
    gathered.put(sink, b"\n");
}

/// Puts what shows that two tuples have no common point.
fn put_proof<K: Sink>(proof: &Proof, gathered: &mut Gathered, sink: &mut K)
    ensures { Puts
        (output (K.contents sink.old) (K.faults sink.old) gathered.old)
        (output (K.contents sink.new) (K.faults sink.new) gathered.new)
        (proof_text proof.now) }
{
    match proof {
        Proof::Text => gathered.put(sink, b"text"),
        Proof::Multipliers(multipliers) => {
            gathered.put(sink, b":");
            put_multipliers(&multipliers.list, gathered, sink);
        }
    }
}

/// Puts each number behind a blank.
fn put_multipliers<K: Sink>(list: &[i128], gathered: &mut Gathered, sink: &mut K)
    ensures { Puts
        (output (K.contents sink.old) (K.faults sink.old) gathered.old)
        (output (K.contents sink.new) (K.faults sink.new) gathered.new)
        (multipliers_text list.now) }
{
    for number in list {
        gathered.put(sink, b" ");
        put_integer(*number, gathered, sink);
    }
}
