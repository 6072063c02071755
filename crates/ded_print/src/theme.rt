//! Text atoms.
ghost use Rattle.ded_print.specs.Gathering.{output, Puts};
ghost use Rattle.ded_model.specs.Quoting.{doubled, doubled_byte, quoted};
ghost use Rattle.ded_print.specs.Tuples.{theme_text};

use crate::gathered::Gathered;
use crate::naming::{SlotNames, name_bytes};
use ded_io::Sink;
use ded_model::tuple::ThemeAtom;

/// Puts a text atom: a slot compared with a text or with another slot.
pub(crate) fn put_theme<N: SlotNames, K: Sink>(
    atom: &ThemeAtom,
    names: &N,
    gathered: &mut Gathered,
    sink: &mut K,
)
    ensures { Puts
        (output (K.contents sink.old) (K.faults sink.old) gathered.old)
        (output (K.contents sink.new) (K.faults sink.new) gathered.new)
        (theme_text (N.names names.now) atom.now) }
{
    match atom {
        ThemeAtom::EqText(slot, text) => {
            names.put_name(*slot, gathered, sink);
            gathered.put(sink, b" = ");
            put_quoted(name_bytes(text), gathered, sink);
        }
        ThemeAtom::NeText(slot, text) => {
            names.put_name(*slot, gathered, sink);
            gathered.put(sink, b" != ");
            put_quoted(name_bytes(text), gathered, sink);
        }
        ThemeAtom::EqSlot(left, right) => {
            names.put_name(*left, gathered, sink);
            gathered.put(sink, b" = ");
            names.put_name(*right, gathered, sink);
        }
        ThemeAtom::NeSlot(left, right) => {
            names.put_name(*left, gathered, sink);
            gathered.put(sink, b" != ");
            names.put_name(*right, gathered, sink);
        }
    }
}

/// Puts a text between quotes, each quote inside it twice.
pub(crate) fn put_quoted<K: Sink>(text: &[u8], gathered: &mut Gathered, sink: &mut K)
    ensures { Puts
        (output (K.contents sink.old) (K.faults sink.old) gathered.old)
        (output (K.contents sink.new) (K.faults sink.new) gathered.new)
        (quoted text.now) }
{
    gathered.put(sink, b"'");
    put_doubled(text, gathered, sink);
    gathered.put(sink, b"'");
}

/// Puts a text, each quote twice.
fn put_doubled<K: Sink>(text: &[u8], gathered: &mut Gathered, sink: &mut K)
    ensures { Puts
        (output (K.contents sink.old) (K.faults sink.old) gathered.old)
        (output (K.contents sink.new) (K.faults sink.new) gathered.new)
        (doubled text.now) }
{
    for byte in text {
        put_byte(*byte, gathered, sink);
    }
}

/// Puts a byte, twice where it is a quote.
fn put_byte<K: Sink>(byte: u8, gathered: &mut Gathered, sink: &mut K)
    ensures { Puts
        (output (K.contents sink.old) (K.faults sink.old) gathered.old)
        (output (K.contents sink.new) (K.faults sink.new) gathered.new)
        (doubled_byte byte) }
{
    if byte == b'\'' {
        gathered.put(sink, b"''");
        return;
    }
    gathered.put(sink, &[byte]);
}
