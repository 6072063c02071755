//! Columns and headings.
ghost use Rattle.std.specs.Prelude.{◌≡◌, ◌++◌, [], OnOk};
ghost use Rattle.ded_print.specs.Plans.{sort_text};
ghost use Rattle.ded_dump.specs.Headings.{column_text, columns_text, heading_text};

use crate::text::Text;
use ded_model::memory::NoMemory;
use ded_model::name::{Column, Heading};
use ded_model::slot::Sort;

/// Puts a heading.
///
/// # Errors
/// Out of memory.
pub(crate) fn put_heading(text: &mut Text, heading: &Heading) -> Result<(), NoMemory>
    ensures { OnOk result (text.new ≡ text.old ++ heading_text heading.now) }
{
    text.put(b"(")?;
    put_columns(text, heading.columns.as_slice())?;
    text.put(b")")
}

/// Puts columns, with a comma and a blank between them.
fn put_columns(text: &mut Text, columns: &[Column]) -> Result<(), NoMemory>
    ensures { OnOk result (text.new ≡ text.old ++ columns_text [] columns.now) }
{
    let mut lead: &[u8] = b"";
    for column in columns {
        text.put(lead)?;
        put_column(text, column)?;
        lead = b", ";
    }
    Ok(())
}

/// Puts a column or the variable of a quantifier.
///
/// # Errors
/// Out of memory.
pub(crate) fn put_column(text: &mut Text, column: &Column) -> Result<(), NoMemory>
    ensures { OnOk result (text.new ≡ text.old ++ column_text column.now) }
{
    text.put_name(&column.name)?;
    text.put(sort_bytes(column.sort))
}

/// What is written of a sort after a name.
fn sort_bytes(sort: Sort) -> &'static [u8]
    ensures { result.now ≡ sort_text sort }
{
    match sort {
        Sort::Rat => b"",
        Sort::Text => b" text",
    }
}
