//! Windows: conjunctions at whose points an evaluation has to be exact, and what they ask of the columns of a relation.
ghost use Rattle.std.specs.Prelude.{◌≡◌, false, true, Bool, IfOk, IfSome};
ghost use Rattle.std.specs.List.{AllByRecursion};
ghost use Rattle.ded_model.specs.Point.{Point, text_at};
ghost use Rattle.ded_model.specs.Point as point;
ghost use Rattle.ded_model.specs.Row.{row_holds, theme_holds, atom_holds, atom_mentions};
ghost use Rattle.ded_model.specs.Cell.{conj_holds};
ghost use Rattle.ded_theory.specs.Conjunctions.{conj_mentions};
ghost use Rattle.ded_atoms.specs.Reading.{atom_of};
ghost use Rattle.ded_eval.specs.Within.{StandsAt, IsLimitOf, IsWindowOf};

use ded_atoms::{AtomRef, OfTuples};
use ded_model::memory::NoMemory;
use ded_model::name::Name;
use ded_model::row::Row;
use ded_model::slot::{Slot, Sort};
use ded_model::tuple::ThemeAtom;
use ded_ranges::{Limit, Window};
use std::alloc::Global;

/// What the window asks of the columns that are read into the slots.
///
/// # Errors
/// Out of memory.
pub(crate) fn columns_window<T: OfTuples>(
    alloc: Global,
    window: &[T::Atom],
    slots: &[Slot],
) -> Result<Window, NoMemory>
    ensures { IfOk result (IsWindowOf slots.now (conj_holds T.holds window.now)) }
{
    let mut asked = Window {
        limits: Vec::new(alloc),
        texts: Vec::new(alloc),
    };
    for atom in window {
        ask(alloc, &mut asked, T::lent(atom), slots)?;
    }
    Ok(asked)
}

/// Asks for what an atom says of the columns, where it says it of them alone.
///
/// # Errors
/// Out of memory.
fn ask(
    alloc: Global,
    window: &mut Window,
    atom: AtomRef<'_>,
    slots: &[Slot],
) -> Result<(), NoMemory>
    ensures { IfOk result (λ _. (inside : Point → Bool)
        → ((p : Point) → inside p ≡ true → atom_holds (atom_of atom.entry) p ≡ true)
        → IsWindowOf slots.now inside window.old → IsWindowOf slots.now inside window.new) }
{
    match atom {
        AtomRef::Linear(row) => ask_row(alloc, window, row, slots),
        AtomRef::Theme(theme) => ask_theme(window, theme, slots),
    }
}

/// Asks for the text that an equality gives a column.
///
/// # Errors
/// Out of memory.
fn ask_theme(window: &mut Window, atom: &ThemeAtom, slots: &[Slot]) -> Result<(), NoMemory>
    ensures { IfOk result (λ _. (inside : Point → Bool)
        → ((p : Point) → inside p ≡ true → theme_holds atom.now p ≡ true)
        → IsWindowOf slots.now inside window.old → IsWindowOf slots.now inside window.new) }
{
    match atom {
        ThemeAtom::EqText(slot, text) => ask_text(window, *slot, text, slots),
        ThemeAtom::NeText(_, _) | ThemeAtom::EqSlot(_, _) | ThemeAtom::NeSlot(_, _) => Ok(()),
    }
}

/// Asks for the text in the column that is read into the slot, where there is one.
///
/// # Errors
/// Out of memory.
fn ask_text(window: &mut Window, slot: Slot, text: &Name, slots: &[Slot]) -> Result<(), NoMemory>
    ensures { IfOk result (λ _. (inside : Point → Bool)
        → ((p : Point) → inside p ≡ true → text_at p (point.slot slot) ≡ text.now)
        → IsWindowOf slots.now inside window.old → IsWindowOf slots.now inside window.new) }
{
    if slot.sort == Sort::Text {
        if let Some(place) = place_of(slots, slot) {
            window.texts.push((place, text.copy()?))?;
        }
    }
    Ok(())
}

/// Asks for what a row says of the columns, where it mentions no other slot.
///
/// # Errors
/// Out of memory.
fn ask_row(alloc: Global, window: &mut Window, row: &Row, slots: &[Slot]) -> Result<(), NoMemory>
    ensures { IfOk result (λ _. (inside : Point → Bool) → ((p : Point) → inside p ≡ true → row_holds row.now p ≡ true)
        → IsWindowOf slots.now inside window.old → IsWindowOf slots.now inside window.new) }
{
    if let Some(limit) = limit_of(alloc, row, slots)? {
        window.limits.push(limit)?;
    }
    Ok(())
}

/// The row as a limit of the columns that are read into the slots, none where it mentions another slot.
///
/// # Errors
/// Out of memory.
fn limit_of(alloc: Global, row: &Row, slots: &[Slot]) -> Result<Option<Limit>, NoMemory>
    ensures { IfOk result (λ o. IfSome o (IsLimitOf slots.now row.now)) }
{
    let coefs = row.coefs.list();
    let mut terms = Vec::with_capacity(alloc, coefs.len())?;
    for coef in coefs {
        match place_of(slots, coef.0) {
            Some(place) => terms.push(term(place, coef))?,
            None => return Ok(None),
        }
    }
    Ok(Some(Limit {
        terms,
        constant: row.constant,
        op: row.op,
    }))
}

/// The term of a coefficient, at the place.
fn term(place: usize, coef: &(Slot, i128)) -> (usize, i128)
    ensures { result ≡ (place, coef.now.1) }
{
    (place, coef.1)
}

/// A place at which the slot stands in the list.
fn place_of(slots: &[Slot], slot: Slot) -> Option<usize>
    ensures { IfSome result (λ i. StandsAt slots.now i slot) }
{
    for i in 0..slots.len() {
        if slots[i].is_same(slot) {
            return Some(i);
        }
    }
    None
}

/// The atoms of the window that don't mention the slot: what it says of all points that have another value there.
///
/// # Errors
/// Out of memory.
pub(crate) fn without_slot<T: OfTuples>(
    alloc: Global,
    window: &[T::Atom],
    slot: Slot,
) -> Result<Vec<T::Atom>, NoMemory>
    requires { AllByRecursion T.normal window.now }
    ensures weaker { IfOk result (λ v. (p : Point) → conj_holds T.holds window.now p ≡ true
        → conj_holds T.holds v.items p ≡ true) }
    ensures slot { IfOk result (λ v. conj_mentions T.mentions v.items slot ≡ false) }
    ensures normal { IfOk result (λ v. AllByRecursion T.normal v.items) }
{
    let mut atoms = Vec::with_capacity(alloc, window.len())?;
    for atom in window {
        if !mentions(&T::lent(atom), slot) {
            atoms.push(T::copy(atom)?)?;
        }
    }
    Ok(atoms)
}

/// Whether the atom mentions the slot.
fn mentions(atom: &AtomRef<'_>, slot: Slot) -> bool
    ensures { result ≡ atom_mentions (atom_of atom.now) slot }
{
    match atom {
        AtomRef::Linear(row) => row.mentions(slot),
        AtomRef::Theme(theme) => theme.mentions(slot),
    }
}
