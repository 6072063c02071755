//! How slots are called.
ghost use Rattle.std.specs.Prelude.{◌≡◌};
ghost use Rattle.ded_print.specs.Gathering.{output, Puts};
ghost use Rattle.ded_print.specs.Tuples.{Names, column_at};

use crate::gathered::Gathered;
use crate::number::put_natural;
use ded_io::Sink;
use ded_model::name::{Column, Name};
use ded_model::slot::Slot;

/// Gives each slot a name.
pub(crate) trait SlotNames {
    /// The names of the slots.
    ghost names: { Self → Names };

    /// Puts the name of the slot.
    fn put_name<K: Sink>(&self, slot: Slot, gathered: &mut Gathered, sink: &mut K)
        ensures { Puts
            (output (K.contents sink.old) (K.faults sink.old) gathered.old)
            (output (K.contents sink.new) (K.faults sink.new) gathered.new)
            (names self.now slot) };
}

/// Slot number i is called as column i.
#[derive(Clone, Copy)]
pub(crate) struct ColumnNames<'a> {
    columns: &'a [Column],
}

impl<'a> ColumnNames<'a> {
    /// The names of slots by these columns.
    pub(crate) fn new(columns: &'a [Column]) -> ColumnNames<'a>
        ensures { result.columns.now ≡ columns.now }
    {
        ColumnNames { columns }
    }
}

impl SlotNames for ColumnNames<'_> {
    ghost use Rattle.ded_print.specs.Naming.{names_of};

    ghost names = { names_of };

    fn put_name<K: Sink>(&self, slot: Slot, gathered: &mut Gathered, sink: &mut K) {
        gathered.put(sink, column_name(self.columns, slot.number));
    }
}

/// Slot number i is called `v` and i.
#[derive(Clone, Copy)]
pub(crate) struct SlotNumbers;

impl SlotNames for SlotNumbers {
    ghost use Rattle.ded_print.specs.Naming.{numbers_of};

    ghost names = { numbers_of };

    fn put_name<K: Sink>(&self, slot: Slot, gathered: &mut Gathered, sink: &mut K) {
        gathered.put(sink, b"v");
        put_natural(u64::from(slot.number), gathered, sink);
    }
}

/// The name of column number i, which is empty where there is none.
fn column_name(columns: &[Column], number: u32) -> &[u8]
    ensures { result.now ≡ column_at columns.now number }
{
    match columns.get(number as usize) {
        Some(column) => name_bytes(&column.name),
        None => &[],
    }
}

/// The bytes of a name.
pub(crate) fn name_bytes(name: &Name) -> &[u8]
    ensures { result.now ≡ name.now }
{
    name.bytes.as_slice()
}
