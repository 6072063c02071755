//! The line of a tuple.
ghost use Rattle.std.specs.Prelude.{◌≡◌, ◌++◌, OnOk};
ghost use Rattle.ded_print.specs.Tuples.{column_at};
ghost use Rattle.ded_cells.specs.Lines.{bounded_cell, cell_text, cells_text, has_free, has_two_free, is_fixed, is_one};
ghost use Rattle.ded_cells.specs.Lines.{is_tie, is_told, tie_text, ties_text, told_text, tuple_text};

use crate::extent::{Extent, span_at};
use crate::span::{put_span, value_in};
use crate::theme::put_texts;
use ded_atoms::following;
use ded_dump::Text;
use ded_model::bound::Bound;
use ded_model::memory::NoMemory;
use ded_model::name::{Column, Heading, Name};
use ded_model::slot::{Slot, Sort};
use ded_model::tuple::{Atom, BothAtom, ThemeAtom};

/// Puts the cells of a tuple, the first one after `lead`, and the atoms that tie columns.
///
/// # Errors
/// Out of memory.
pub(crate) fn put_tuple(
    text: &mut Text,
    heading: &Heading,
    lead: &[u8],
    atoms: &[Atom],
    extent: &Extent,
) -> Result<(), NoMemory>
    ensures { OnOk result (text.new ≡ text.old ++ tuple_text heading.now lead.now atoms.now extent.now) }
{
    put_cells(text, heading, lead, atoms, extent)?;
    put_ties(text, heading, atoms, extent)
}

/// Puts a cell for each column, the first one after `lead`, each later one after a tab.
fn put_cells(
    text: &mut Text,
    heading: &Heading,
    lead: &[u8],
    atoms: &[Atom],
    extent: &Extent,
) -> Result<(), NoMemory>
    ensures { OnOk result (text.new ≡ text.old ++ cells_text heading.now atoms.now extent.now 0 lead.now heading.now) }
{
    let mut number = 0;
    let mut lead = lead;
    for column in &heading.columns {
        text.put(lead)?;
        put_cell(text, heading, atoms, extent, number, column)?;
        lead = b"\t";
        number = following(number)?;
    }
    Ok(())
}

/// Puts what is known of the column of this number.
fn put_cell(
    text: &mut Text,
    heading: &Heading,
    atoms: &[Atom],
    extent: &Extent,
    number: u32,
    column: &Column,
) -> Result<(), NoMemory>
    ensures { OnOk result (text.new ≡ text.old ++ cell_text heading.now atoms.now extent.now number column.now) }
{
    match extent {
        Extent::Nowhere => put_named(text, &column.name, b" nowhere"),
        Extent::Within(spans) => match column.sort {
            Sort::Rat => put_bounded(
                text,
                &column.name,
                span_at(&heading.columns, &spans.list, number),
            ),
            Sort::Text => put_texts(text, &column.name, number, atoms),
        },
        Extent::Wide => match column.sort {
            Sort::Rat => put_named(text, &column.name, b" wide"),
            Sort::Text => put_texts(text, &column.name, number, atoms),
        },
    }
}

/// Puts a name and what stands behind it.
fn put_named(text: &mut Text, name: &Name, behind: &[u8]) -> Result<(), NoMemory>
    ensures { OnOk result (text.new ≡ text.old ++ (name.now ++ behind.now)) }
{
    text.put_name(name)?;
    text.put(behind)
}

/// Puts a rational column with its bounds.
fn put_bounded(text: &mut Text, name: &Name, span: Option<(Bound, Bound)>) -> Result<(), NoMemory>
    ensures { OnOk result (text.new ≡ text.old ++ bounded_cell name.now span) }
{
    match span {
        Some(span) => put_span(text, name, span),
        None => text.put_name(name),
    }
}

/// Puts each atom that is told behind the cells, after a tab.
fn put_ties(
    text: &mut Text,
    heading: &Heading,
    atoms: &[Atom],
    extent: &Extent,
) -> Result<(), NoMemory>
    ensures { OnOk result (text.new ≡ text.old ++ ties_text heading.now extent.now atoms.now) }
{
    for atom in atoms {
        put_told(text, heading, extent, atom)?;
    }
    Ok(())
}

/// Puts an atom after a tab, where it is told behind the cells.
fn put_told(
    text: &mut Text,
    heading: &Heading,
    extent: &Extent,
    atom: &Atom,
) -> Result<(), NoMemory>
    ensures { OnOk result (text.new ≡ text.old ++ told_text heading.now extent.now atom.now) }
{
    if !is_tie(heading, extent, atom) {
        return Ok(());
    }
    text.put(b"\t")?;
    put_tie(text, heading, atom)
}

/// Whether the atom is told behind the cells: it ties columns, or no bounds are told.
fn is_tie(heading: &Heading, extent: &Extent, atom: &Atom) -> bool
    ensures { result ≡ is_tie heading.now extent.now atom.now }
{
    match atom {
        BothAtom::First(row) => is_told(heading, extent, row.coefs.list()),
        BothAtom::Second(ThemeAtom::EqSlot(_, _) | ThemeAtom::NeSlot(_, _)) => true,
        BothAtom::Second(ThemeAtom::EqText(_, _) | ThemeAtom::NeText(_, _)) => false,
    }
}

/// Whether a row with these coefficients is told behind the cells.
fn is_told(heading: &Heading, extent: &Extent, coefs: &[(Slot, i128)]) -> bool
    ensures { result ≡ is_told heading.now extent.now coefs.now }
{
    match extent {
        Extent::Nowhere | Extent::Within(_) => has_two_free(heading, extent, coefs),
        Extent::Wide => has_free(heading, extent, coefs),
    }
}

/// Whether some column of more than one value has a coefficient.
fn has_free(heading: &Heading, extent: &Extent, coefs: &[(Slot, i128)]) -> bool
    ensures { result ≡ has_free heading.now extent.now coefs.now }
{
    match coefs.split_first() {
        Some((first, later)) if is_fixed(heading, extent, first.0.number) => {
            has_free(heading, extent, later)
        }
        Some(_) => true,
        None => false,
    }
}

/// Whether two columns of more than one value have a coefficient.
fn has_two_free(heading: &Heading, extent: &Extent, coefs: &[(Slot, i128)]) -> bool
    ensures { result ≡ has_two_free heading.now extent.now coefs.now }
{
    match coefs.split_first() {
        Some((first, later)) if is_fixed(heading, extent, first.0.number) => {
            has_two_free(heading, extent, later)
        }
        Some((_, later)) => has_free(heading, extent, later),
        None => false,
    }
}

/// Whether the column of this number has one value.
fn is_fixed(heading: &Heading, extent: &Extent, number: u32) -> bool
    ensures { result ≡ is_fixed heading.now extent.now number }
{
    match extent {
        Extent::Nowhere | Extent::Wide => false,
        Extent::Within(spans) => is_one(span_at(&heading.columns, &spans.list, number)),
    }
}

/// Whether the bounds leave one value.
fn is_one(span: Option<(Bound, Bound)>) -> bool
    ensures { result ≡ is_one span }
{
    match span {
        Some(span) => value_in(span.0, span.1).is_some(),
        None => false,
    }
}

/// Puts an atom that is told behind the cells.
fn put_tie(text: &mut Text, heading: &Heading, atom: &Atom) -> Result<(), NoMemory>
    ensures { OnOk result (text.new ≡ text.old ++ tie_text heading.now atom.now) }
{
    match atom {
        BothAtom::First(row) => text.put_row(heading, row),
        BothAtom::Second(ThemeAtom::EqSlot(left, right)) => {
            put_pair(text, heading, left.number, b" = ", right.number)
        }
        BothAtom::Second(ThemeAtom::NeSlot(left, right)) => {
            put_pair(text, heading, left.number, b" != ", right.number)
        }
        BothAtom::Second(ThemeAtom::EqText(_, _) | ThemeAtom::NeText(_, _)) => Ok(()),
    }
}

/// Puts the names of two columns, given by their numbers, with a sign between them.
fn put_pair(
    text: &mut Text,
    heading: &Heading,
    left: u32,
    sign: &[u8],
    right: u32,
) -> Result<(), NoMemory>
    ensures { OnOk result (text.new ≡ text.old ++ (column_at heading.now left
        ++ (sign.now ++ column_at heading.now right))) }
{
    text.put(column_name(&heading.columns, left))?;
    text.put(sign)?;
    text.put(column_name(&heading.columns, right))
}

/// The name of column number `number`, counted from 0, which is empty where there is none.
fn column_name(columns: &[Column], number: u32) -> &[u8]
    ensures { result.now ≡ column_at columns.now number }
{
    match columns.split_first() {
        Some((column, _)) if number == 0 => column.name.bytes.as_slice(),
        Some((_, behind)) => column_name(behind, number - 1),
        None => &[],
    }
}
