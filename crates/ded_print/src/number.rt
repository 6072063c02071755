//! Numbers in decimal.
ghost use Rattle.ded_print.specs.Gathering.{output, Puts};
ghost use Rattle.ded_print.specs.Numbers.{number_text, integer_text};

use crate::gathered::Gathered;
use ded_io::Sink;
use itoa::Buffer;

/// Puts a number of a tuple or a count.
pub(crate) fn put_natural<K: Sink>(number: u64, gathered: &mut Gathered, sink: &mut K)
    ensures { Puts
        (output (K.contents sink.old) (K.faults sink.old) gathered.old)
        (output (K.contents sink.new) (K.faults sink.new) gathered.new)
        (number_text number) }
{
    let mut buffer = Buffer::new();
    gathered.put(sink, buffer.format(number).as_bytes());
}

/// Puts a coefficient's magnitude.
pub(crate) fn put_magnitude<K: Sink>(number: u128, gathered: &mut Gathered, sink: &mut K)
    ensures { Puts
        (output (K.contents sink.old) (K.faults sink.old) gathered.old)
        (output (K.contents sink.new) (K.faults sink.new) gathered.new)
        (number_text number) }
{
    let mut buffer = Buffer::new();
    gathered.put(sink, buffer.format(number).as_bytes());
}

/// Puts a constant, with `-` before a negative one.
pub(crate) fn put_integer<K: Sink>(number: i128, gathered: &mut Gathered, sink: &mut K)
    ensures { Puts
        (output (K.contents sink.old) (K.faults sink.old) gathered.old)
        (output (K.contents sink.new) (K.faults sink.new) gathered.new)
        (integer_text number) }
{
    let mut buffer = Buffer::new();
    gathered.put(sink, buffer.format(number).as_bytes());
}
