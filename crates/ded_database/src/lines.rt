//! Lines of rows, and whether tuples have one of some lines.
ghost use Rattle.std.specs.Prelude.{◌≡◌, ◌++◌, true, false, [], ◌∷◌, IfOk, OnOk};
ghost use Rattle.ded_model.specs.Lines.{IsSubset, row_lines, atoms_lines, tuples_lines};
ghost use Rattle.ded_model.specs.Renaming.{IsOneToOne, KeepsSorts, mapped_lines};
ghost use Rattle.ded_model.specs.Row.{row_mentions, tuple_mentions};
ghost use Rattle.ded_database.specs.Lost.{as_lines, AreApartLines};

use ded_model::laws::sameness::equal_tuples;
use ded_model::memory::NoMemory;
use ded_model::row::{Row, RowOp};
use ded_model::slot::Slot;
use ded_model::tuple::{Atom, BothAtom, Tuple};
use ded_row::{normal, rename};
use std::alloc::Global;

/// Adds the lines of the atoms, with each slot replaced as the pairs say.
///
/// # Errors
/// Out of memory. Some may be added then.
pub(crate) fn add_lines(
    lines: &mut Vec<Row>,
    atoms: &[Atom],
    map: &[(Slot, Slot)],
) -> Result<(), NoMemory>
    requires one { IsOneToOne map.now (tuple_mentions atoms.now) }
    requires sorts { KeepsSorts map.now (tuple_mentions atoms.now) }
    ensures { OnOk result (lines.new.items ≡ lines.old.items ++ mapped_lines map.now (atoms_lines atoms.now)) }
{
    for atom in atoms {
        match atom {
            BothAtom::First(row) => add_line(lines, row, map)?,
            BothAtom::Second(_) => {}
        }
    }
    Ok(())
}

/// Adds the line of the row, if it has one, with each slot replaced as the pairs say.
///
/// # Errors
/// Out of memory.
fn add_line(lines: &mut Vec<Row>, row: &Row, map: &[(Slot, Slot)]) -> Result<(), NoMemory>
    requires one { IsOneToOne map.now (row_mentions row.now) }
    requires sorts { KeepsSorts map.now (row_mentions row.now) }
    ensures { OnOk result (lines.new.items ≡ lines.old.items ++ mapped_lines map.now (row_lines row.now)) }
{
    let row = rename(row, map)?;
    if let Some(line) = line_of(&row)? {
        lines.push(line)?;
    }
    Ok(())
}

/// The lines of the atoms.
///
/// # Errors
/// Out of memory.
pub(crate) fn lines_of(alloc: Global, atoms: &[Atom]) -> Result<Vec<Row>, NoMemory>
    ensures { IfOk result (λ v. v.items ≡ atoms_lines atoms.now) }
{
    let mut lines = Vec::new(alloc);
    for atom in atoms {
        add_own_line(&mut lines, atom)?;
    }
    Ok(lines)
}

/// Adds the line of the atom, if it has one.
///
/// # Errors
/// Out of memory.
fn add_own_line(lines: &mut Vec<Row>, atom: &Atom) -> Result<(), NoMemory>
    ensures { OnOk result (lines.new.items ≡ lines.old.items ++ atoms_lines (atom.now ∷ [])) }
{
    let BothAtom::First(row) = atom else {
        return Ok(());
    };
    if let Some(line) = line_of(row)? {
        lines.push(line)?;
    }
    Ok(())
}

/// The line of the row: what it compares with 0, in lowest numbers. A row without coefficients has none.
///
/// # Errors
/// Out of memory.
fn line_of(row: &Row) -> Result<Option<Row>, NoMemory>
    ensures { IfOk result (λ line. as_lines line ≡ row_lines row.now) }
{
    if row.coefs.list().is_empty() {
        return Ok(None);
    }
    Ok(Some(normal(Row {
        coefs: row.coefs.copy()?,
        constant: row.constant,
        op: RowOp::Zero,
    })))
}

/// Whether some tuple has one of the lines.
///
/// # Errors
/// Out of memory.
pub(crate) fn have_any(tuples: &[Tuple], lines: &[Row]) -> Result<bool, NoMemory>
    ensures { IfOk result (λ b. b ≡ false → AreApartLines (tuples_lines tuples.now) lines.now) }
{
    for tuple in tuples {
        if has_any(tuple, lines)? {
            return Ok(true);
        }
    }
    Ok(false)
}

/// Whether the tuple has one of the lines.
///
/// # Errors
/// Out of memory.
fn has_any(tuple: &Tuple, lines: &[Row]) -> Result<bool, NoMemory>
    ensures { IfOk result (λ b. b ≡ false → AreApartLines (atoms_lines tuple.now) lines.now) }
{
    for atom in &tuple.atoms {
        if is_of_any(atom, lines)? {
            return Ok(true);
        }
    }
    Ok(false)
}

/// Whether the atom is a row of one of the lines.
///
/// # Errors
/// Out of memory.
fn is_of_any(atom: &Atom, lines: &[Row]) -> Result<bool, NoMemory>
    ensures { IfOk result (λ b. b ≡ false → AreApartLines (atoms_lines (atom.now ∷ [])) lines.now) }
{
    match atom {
        BothAtom::First(row) => is_one_of(row, lines),
        BothAtom::Second(_) => Ok(false),
    }
}

/// Whether the row has one of the lines.
///
/// # Errors
/// Out of memory.
pub(crate) fn is_one_of(row: &Row, lines: &[Row]) -> Result<bool, NoMemory>
    ensures there { IfOk result (λ b. b ≡ true → IsSubset (row_lines row.now) lines.now) }
    ensures apart { IfOk result (λ b. b ≡ false → AreApartLines (row_lines row.now) lines.now) }
{
    equal_tuples();
    match line_of(row)? {
        Some(line) => Ok(lines.contains(&line)),
        None => Ok(false),
    }
}
