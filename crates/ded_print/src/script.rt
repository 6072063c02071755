//! Scripts.
ghost use Rattle.std.specs.Prelude.{codes, length};
ghost use Rattle.ded_io.specs.Causes.{HasCause};
ghost use Rattle.ded_io.specs.Devices.{AddsAll};
ghost use Rattle.ded_print.specs.Gathering.{output, Puts};
ghost use Rattle.ded_print.specs.Lines.{counted_text, line_text, lines_text, script_text};
ghost use Rattle.ded_print.specs.Numbers.{number_text};

use crate::gathered::Gathered;
use crate::naming::name_bytes;
use crate::number::put_natural;
use ded_io::{Failed, Sink};
use ded_model::name::Name;

/// Prints the lines of a script.
///
/// # Errors
/// `Failed` only where the sink's count of faults rose.
pub fn print_script<K: Sink>(lines: &[Name], sink: &mut K) -> Result<(), Failed>
    ensures bytes { AddsAll (K.contents sink.old) (K.contents sink.new) result (script_text lines.now) }
    ensures cause { HasCause (K.faults sink.old) (K.faults sink.new) result }
{
    let mut gathered = Gathered::new();
    put_script(lines, &mut gathered, sink);
    gathered.finish(sink)
}

/// Puts a script: the count of its lines, the lines, and the end.
fn put_script<K: Sink>(lines: &[Name], gathered: &mut Gathered, sink: &mut K)
    ensures { Puts
        (output (K.contents sink.old) (K.faults sink.old) gathered.old)
        (output (K.contents sink.new) (K.faults sink.new) gathered.new)
        (counted_text (codes "dump") (number_text (length lines.now)) lines.now) }
{
    gathered.put(sink, b"dump ");
    put_natural(lines.len() as u64, gathered, sink);
    gathered.put(sink, b"\n");
    put_lines(lines, gathered, sink);
    gathered.put(sink, b"end\n");
}

/// Puts the lines.
fn put_lines<K: Sink>(lines: &[Name], gathered: &mut Gathered, sink: &mut K)
    ensures { Puts
        (output (K.contents sink.old) (K.faults sink.old) gathered.old)
        (output (K.contents sink.new) (K.faults sink.new) gathered.new)
        (lines_text lines.now) }
{
    for line in lines {
        put_line(line, gathered, sink);
    }
}

/// Puts the bytes of a line, and a line feed.
fn put_line<K: Sink>(line: &Name, gathered: &mut Gathered, sink: &mut K)
    ensures { Puts
        (output (K.contents sink.old) (K.faults sink.old) gathered.old)
        (output (K.contents sink.new) (K.faults sink.new) gathered.new)
        (line_text line.now) }
{
    gathered.put(sink, name_bytes(line));
    gathered.put(sink, b"\n");
}
