//! Texts in memory that grow as they are written.
ghost use Rattle.std.specs.Prelude.{◌≡◌, ◌++◌, [], OnOk, IsOk};
ghost use Rattle.ded_model.specs.Quoting.{quoted};
ghost use Rattle.ded_print.specs.Numbers.{fraction_text};
ghost use Rattle.ded_print.specs.Tuples.{column_names, row_text, unlike_text, tuple_text};

use ded_io::{Failed, Sink};
use ded_model::bound::Frac;
use ded_model::memory::NoMemory;
use ded_model::name::{Heading, Name};
use ded_model::row::Row;
use ded_model::tuple::Tuple;
use ded_print::{print_fraction, print_quoted, print_row, print_tuple, print_unlike};
use std::alloc::{AllocError, Global};
use std::marker::Model;

/// A text that is written piece by piece. Contracts see its bytes. As a sink it takes each piece whole or runs out of
/// memory, and its count of faults stands at the last value.
#[derive(Drop)]
pub struct Text {
    bytes: Vec<u8>,
}

impl Model for Text {
    ghost use Rattle.std.specs.Prelude.{List, ℕ};

    ghost Value = { List ℕ };

    ghost view = { λ t. t.bytes.items };
}

impl Text {
    /// A text without bytes. It does not allocate.
    pub fn new(alloc: Global) -> Text
        ensures { result ≡ [] }
    {
        Text {
            bytes: Vec::new(alloc),
        }
    }

    /// The bytes that were put, as a line.
    pub fn into_line(self) -> Name
        ensures { result ≡ self }
    {
        Name { bytes: self.bytes }
    }

    /// Puts the bytes at the end.
    ///
    /// # Errors
    /// Out of memory.
    pub fn put(&mut self, bytes: &[u8]) -> Result<(), NoMemory>
        ensures { OnOk result (self.new ≡ self.old ++ bytes.now) }
    {
        self.bytes.extend_from_slice(bytes)?;
        Ok(())
    }

    /// Puts a name at the end.
    ///
    /// # Errors
    /// Out of memory.
    pub fn put_name(&mut self, name: &Name) -> Result<(), NoMemory>
        ensures { OnOk result (self.new ≡ self.old ++ name.now) }
    {
        self.put(name.bytes.as_slice())
    }

    /// Puts a text between quotes.
    ///
    /// # Errors
    /// Out of memory.
    pub fn put_quoted(&mut self, text: &Name) -> Result<(), NoMemory>
        ensures { OnOk result (self.new ≡ self.old ++ quoted text.now) }
    {
        told(print_quoted(text, self))
    }

    /// Puts a fraction in lowest terms.
    ///
    /// # Errors
    /// Out of memory.
    pub fn put_fraction(&mut self, value: Frac) -> Result<(), NoMemory>
        ensures { OnOk result (self.new ≡ self.old ++ fraction_text value) }
    {
        told(print_fraction(value, self))
    }

    /// Puts a row over the columns of a heading.
    ///
    /// # Errors
    /// Out of memory.
    pub fn put_row(&mut self, heading: &Heading, row: &Row) -> Result<(), NoMemory>
        ensures { OnOk result (self.new ≡ self.old ++ row_text (column_names heading.now) row.now) }
    {
        told(print_row(heading, row, self))
    }

    /// Puts a row over the columns of a heading, with `!=` in the place of its sign.
    ///
    /// # Errors
    /// Out of memory.
    pub fn put_unlike(&mut self, heading: &Heading, row: &Row) -> Result<(), NoMemory>
        ensures { OnOk result (self.new ≡ self.old ++ unlike_text (column_names heading.now) row.now) }
    {
        told(print_unlike(heading, row, self))
    }

    /// Puts a tuple over the columns of a heading.
    ///
    /// # Errors
    /// Out of memory.
    pub fn put_tuple(&mut self, heading: &Heading, tuple: &Tuple) -> Result<(), NoMemory>
        ensures { OnOk result (self.new ≡ self.old ++ tuple_text (column_names heading.now) tuple.now) }
    {
        told(print_tuple(heading, tuple, self))
    }
}

impl Sink for Text {
    ghost use Rattle.std.specs.Prelude.{Some};

    ghost contents = { λ t. Some t };

    ghost faults = { λ _. 18446744073709551615 };

    fn write(&mut self, bytes: &[u8]) -> Result<usize, Failed> {
        match self.bytes.extend_from_slice(bytes) {
            Ok(()) => Ok(bytes.len()),
            Err(AllocError) => Err(Failed),
        }
    }
}

/// Where a text took not all it ran out of memory.
fn told(sent: Result<(), Failed>) -> Result<(), NoMemory>
    ensures { OnOk result (IsOk sent) }
{
    match sent {
        Ok(()) => Ok(()),
        Err(Failed) => Err(AllocError),
    }
}
