//! Whether tuples are over a heading.
ghost use Rattle.std.specs.Prelude.{◌≡◌, ◌≤◌, true};
ghost use Rattle.std.specs.List.{AllByRecursion, list_all};
ghost use Rattle.ded_num.specs.Length.{IsShort};
ghost use Rattle.ded_model.specs.Point.{same_sort, stands_in};
ghost use Rattle.ded_model.specs.Coefs.{AreCoefs};
ghost use Rattle.ded_model.specs.Normal.{IsNormalTuple};
ghost use Rattle.ded_model.specs.Known.{heading_slots};
ghost use Rattle.ded_model.specs.Width.{row_length, tuple_length};
ghost use Rattle.ded_readback.specs.Spelling.{IsShortTuple};
ghost use Rattle.ded_readback.specs.Over.{coefs_over, theme_over, atom_over, IsShortAtom};

use ded_model::name::Column;
use ded_model::row::Row;
use ded_model::slot::{Slot, Sort};
use ded_model::tuple::{Atom, BothAtom, ThemeAtom, Tuple};

/// Whether each tuple mentions only slots of the columns.
pub(crate) fn are_over(columns: &[Column], tuples: &[Tuple]) -> bool
    ensures over { result ≡ true → AllByRecursion (IsShortTuple columns.now) tuples.now }
    ensures all { AllByRecursion (IsShortTuple columns.now) tuples.now → result ≡ true }
{
    for tuple in tuples {
        if !is_over(columns, tuple) {
            return false;
        }
    }
    true
}

/// Whether the tuple mentions only slots of the columns.
fn is_over(columns: &[Column], tuple: &Tuple) -> bool
    ensures over { result ≡ true → IsShortTuple columns.now tuple.now }
    ensures all { IsShortTuple columns.now tuple.now → result ≡ true }
{
    are_atoms_over(columns, atoms_of(tuple))
}

/// The atoms of a tuple, which is in normal form.
fn atoms_of(tuple: &Tuple) -> &[Atom]
    ensures value { result.now ≡ tuple.now }
    ensures normal { IsNormalTuple tuple.now }
{
    tuple.atoms.as_slice()
}

/// Whether each of the atoms mentions only slots of the columns.
fn are_atoms_over(columns: &[Column], atoms: &[Atom]) -> bool
    ensures value { result ≡ list_all (atom_over columns.now) atoms.now }
    ensures short { result ≡ true → tuple_length atoms.now ≤ 127 }
{
    for atom in atoms {
        if !is_atom_over(columns, atom) {
            return false;
        }
    }
    true
}

/// Whether the atom mentions only slots of the columns.
fn is_atom_over(columns: &[Column], atom: &Atom) -> bool
    ensures value { result ≡ atom_over columns.now atom.now }
    ensures short { IsShortAtom atom.now }
{
    match atom {
        BothAtom::First(row) => is_row_over(columns, row),
        BothAtom::Second(atom) => is_theme_over(columns, atom),
    }
}

/// Whether the row mentions only slots of the columns.
fn is_row_over(columns: &[Column], row: &Row) -> bool
    ensures value { result ≡ coefs_over columns.now row.now.coefs }
    ensures short { row_length row.now ≤ 127 }
{
    are_coefs_over(columns, coefs_of(row))
}

/// The coefficients of a row.
fn coefs_of(row: &Row) -> &[(Slot, i128)]
    ensures value { result.now ≡ row.now.coefs }
    ensures coefs { AreCoefs row.now.coefs }
    ensures short { IsShort row.now.constant }
{
    let _ = row.constant;
    row.coefs.list()
}

/// Whether each of the coefficients is of a slot of the columns.
fn are_coefs_over(columns: &[Column], coefs: &[(Slot, i128)]) -> bool
    ensures { result ≡ coefs_over columns.now coefs.now }
{
    for (slot, _) in coefs {
        if !is_column(columns, *slot) {
            return false;
        }
    }
    true
}

/// Whether the text atom mentions only slots of the columns.
fn is_theme_over(columns: &[Column], atom: &ThemeAtom) -> bool
    ensures { result ≡ theme_over columns.now atom.now }
{
    match atom {
        ThemeAtom::EqText(slot, _) | ThemeAtom::NeText(slot, _) => is_column(columns, *slot),
        ThemeAtom::EqSlot(left, right) | ThemeAtom::NeSlot(left, right) => {
            is_column(columns, *left) && is_column(columns, *right)
        }
    }
}

/// Whether the slot is one of the columns.
fn is_column(columns: &[Column], slot: Slot) -> bool
    ensures { result ≡ stands_in (heading_slots 0 columns.now) slot }
{
    match columns.get(slot.number as usize) {
        Some(column) => is_sort(column.sort, slot.sort),
        None => false,
    }
}

/// Whether the sorts are the same.
fn is_sort(a: Sort, b: Sort) -> bool
    ensures { result ≡ same_sort a b }
{
    a == b
}
