//! Whole tables.
ghost use Rattle.std.specs.Prelude.{◌≡◌, ◌++◌, IfOk, OnOk};
ghost use Rattle.std.specs.List.{AllByRecursion};
ghost use Rattle.ded_model.specs.Known.{IsTupleOver};
ghost use Rattle.ded_model.specs.Catalogue.{tuples_of};
ghost use Rattle.ded_print.specs.Plans.{sort_text};
ghost use Rattle.ded_cells.specs.Tables.{IsAnswerLine, IsAnswerTable, IsStoredLine, IsStoredTable, IsTupleLine};
ghost use Rattle.ded_cells.specs.Tables.{titles_text};
ghost use Rattle.ded_cells.specs.Writing.{WritesLine, WritesLines};

use crate::decimal::put_number;
use crate::extent::extent_of;
use crate::line::put_tuple;
use ded_dump::Text;
use ded_model::answer::Answer;
use ded_model::memory::NoMemory;
use ded_model::name::{Column, Heading, Name};
use ded_model::slot::Sort;
use ded_model::tuple::Tuple;
use std::alloc::Global;

/// The table of an answer.
///
/// # Errors
/// Out of memory.
pub fn answer_table(alloc: Global, answer: &Answer) -> Result<Name, NoMemory>
    requires { AllByRecursion (IsTupleOver answer.now.heading) answer.now.tuples }
    ensures { IfOk result (IsAnswerTable answer.now.heading answer.now.tuples) }
{
    let tuples = answer.tuples.list.as_slice();
    let mut text = Text::new(alloc);
    text.put(b"answer ")?;
    put_number(&mut text, tuples.len() as u128)?;
    text.put(b"\n")?;
    put_titles(&mut text, b"", &answer.heading.columns)?;
    text.put(b"\n")?;
    put_lines(alloc, &mut text, &answer.heading, tuples)?;
    text.put(b"end\n")?;
    Ok(text.into_line())
}

/// The table of the tuples of a relation, which are given with their numbers.
///
/// # Errors
/// Out of memory.
pub fn stored_table(
    alloc: Global,
    heading: &Heading,
    stored: &[(u32, Tuple)],
) -> Result<Name, NoMemory>
    requires { AllByRecursion (IsTupleOver heading.now) (tuples_of stored.now) }
    ensures { IfOk result (IsStoredTable heading.now stored.now) }
{
    let mut text = Text::new(alloc);
    text.put(b"tuples ")?;
    put_number(&mut text, stored.len() as u128)?;
    text.put(b"\ntuple")?;
    put_titles(&mut text, b"\t", &heading.columns)?;
    text.put(b"\n")?;
    put_stored_lines(alloc, &mut text, heading, stored)?;
    text.put(b"end\n")?;
    Ok(text.into_line())
}

/// Puts the columns as they are declared, the first one after `lead`, each later one after a tab.
fn put_titles(text: &mut Text, lead: &[u8], columns: &[Column]) -> Result<(), NoMemory>
    ensures { OnOk result (text.new ≡ text.old ++ titles_text lead.now columns.now) }
{
    let mut lead = lead;
    for column in columns {
        text.put(lead)?;
        text.put_name(&column.name)?;
        text.put(sort_bytes(column.sort))?;
        lead = b"\t";
    }
    Ok(())
}

/// What is written of a sort behind a name.
fn sort_bytes(sort: Sort) -> &'static [u8]
    ensures { result.now ≡ sort_text sort }
{
    match sort {
        Sort::Rat => b"",
        Sort::Text => b" text",
    }
}

/// Puts a line for each tuple.
fn put_lines(
    alloc: Global,
    text: &mut Text,
    heading: &Heading,
    tuples: &[Tuple],
) -> Result<(), NoMemory>
    requires { AllByRecursion (IsTupleOver heading.now) tuples.now }
    ensures { OnOk result (WritesLines (IsAnswerLine heading.now) text.old text.new tuples.now) }
{
    for tuple in tuples {
        put_line(alloc, text, heading, b"", tuple)?;
        text.put(b"\n")?;
    }
    Ok(())
}

/// Puts a line for each tuple, which begins with its number.
fn put_stored_lines(
    alloc: Global,
    text: &mut Text,
    heading: &Heading,
    stored: &[(u32, Tuple)],
) -> Result<(), NoMemory>
    requires { AllByRecursion (IsTupleOver heading.now) (tuples_of stored.now) }
    ensures { OnOk result (WritesLines (IsStoredLine heading.now) text.old text.new stored.now) }
{
    for numbered in stored {
        put_stored_line(alloc, text, heading, numbered)?;
        text.put(b"\n")?;
    }
    Ok(())
}

/// Puts the number of a tuple and then its cells.
fn put_stored_line(
    alloc: Global,
    text: &mut Text,
    heading: &Heading,
    numbered: &(u32, Tuple),
) -> Result<(), NoMemory>
    requires { IsTupleOver heading.now numbered.now.1 }
    ensures { OnOk result (WritesLine (IsStoredLine heading.now numbered.now) text.old text.new) }
{
    put_number(text, u128::from(numbered.0))?;
    put_line(alloc, text, heading, b"\t", &numbered.1)
}

/// Puts the cells of a tuple with its exact bounds, the first one after `lead`, and what ties them.
fn put_line(
    alloc: Global,
    text: &mut Text,
    heading: &Heading,
    lead: &[u8],
    tuple: &Tuple,
) -> Result<(), NoMemory>
    requires { IsTupleOver heading.now tuple.now }
    ensures { OnOk result (WritesLine (IsTupleLine heading.now lead.now tuple.now) text.old text.new) }
{
    let extent = extent_of(alloc, heading, tuple)?;
    put_tuple(text, heading, lead, &tuple.atoms, &extent)
}
