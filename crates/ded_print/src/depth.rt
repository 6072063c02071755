//! How deep a line stands.
ghost use Rattle.ded_print.specs.Gathering.{output, Puts};
ghost use Rattle.ded_print.specs.Depths.{levels};
ghost use Rattle.ded_print.specs.Plans.{indent};

use crate::gathered::Gathered;
use ded_io::Sink;

/// A depth, each level by the one above it, so that there is no greatest one.
#[derive(Clone, Copy)]
pub(crate) enum Depth<'a> {
    Top,
    Below(&'a Depth<'a>),
}

/// Puts the indentation of a line, two blanks for each level of its depth.
pub(crate) fn put_indent<K: Sink>(depth: &Depth<'_>, gathered: &mut Gathered, sink: &mut K)
    ensures { Puts
        (output (K.contents sink.old) (K.faults sink.old) gathered.old)
        (output (K.contents sink.new) (K.faults sink.new) gathered.new)
        (indent (levels depth.now)) }
{
    if let Depth::Below(above) = depth {
        gathered.put(sink, b"  ");
        put_indent(above, gathered, sink);
    }
}
