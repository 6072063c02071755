//! Slots by the names of columns.
ghost use Rattle.std.specs.Prelude.{◌≡◌, Some, None, IfSome, IfNone};
ghost use Rattle.std.specs.Str.{bytes_eq};
ghost use Rattle.ded_readback.specs.Reading.{numbered, column_slot, slot_at};

use crate::bytes::word_length;
use ded_model::name::{Column, Name};
use ded_model::slot::{Slot, Sort};

/// The slot of the column that is named in front, and what stands behind the name; none where no column is.
pub(crate) fn slot<'a>(columns: &[Column], bytes: &'a [u8]) -> Option<(Slot, &'a [u8])>
    ensures some { IfSome result (λ x. slot_at columns.now bytes.now ≡ Some (x.0, x.1.now)) }
    ensures none { IfNone result (slot_at columns.now bytes.now ≡ None) }
{
    let length = word_length(bytes);
    let slot = column_slot(columns, &bytes[..length])?;
    Some((slot, &bytes[length..]))
}

/// The slot of the column of this name, or none where no column has the name.
fn column_slot(columns: &[Column], word: &[u8]) -> Option<Slot>
    ensures { result ≡ column_slot 0 columns.now word.now }
{
    for (i, column) in columns.iter().enumerate() {
        if is_named(&column.name, word) {
            return numbered(i, column.sort);
        }
    }
    None
}

/// The slot of column number i, or none where the number has more than 32 binary digits.
fn numbered(i: usize, sort: Sort) -> Option<Slot>
    ensures { result ≡ numbered i sort }
{
    if i < 1 << 32 {
        return Some(Slot {
            number: i as u32,
            sort,
        });
    }
    None
}

/// Whether the word is the name.
fn is_named(name: &Name, word: &[u8]) -> bool
    ensures { result ≡ bytes_eq name.now word.now }
{
    name.bytes.as_slice() == word
}
