//! Cells of text columns.
ghost use Rattle.std.specs.Prelude.{◌≡◌, ◌++◌, [], IfOk, OnOk};
ghost use Rattle.std.specs.List.{list_any};
ghost use Rattle.ded_cells.specs.Lines.{condition_after, condition_text, conditions_text, is_about, next_lead};
ghost use Rattle.ded_cells.specs.Lines.{texts_cell};

use ded_dump::Text;
use ded_model::memory::NoMemory;
use ded_model::name::Name;
use ded_model::tuple::{Atom, BothAtom, ThemeAtom};

/// Puts what the atoms say of the texts in column number `number`, or that it may have any.
///
/// # Errors
/// Out of memory.
pub(crate) fn put_texts(
    text: &mut Text,
    name: &Name,
    number: u32,
    atoms: &[Atom],
) -> Result<(), NoMemory>
    ensures { OnOk result (text.new ≡ text.old ++ texts_cell name.now number atoms.now) }
{
    if are_about(number, atoms) {
        return put_conditions(text, name, number, atoms);
    }
    text.put_name(name)?;
    text.put(b" any")
}

/// Whether some atom compares text column number `number` with a quoted text.
fn are_about(number: u32, atoms: &[Atom]) -> bool
    ensures { result ≡ list_any (is_about number) atoms.now }
{
    atoms.iter().any(|atom| is_about(number, atom))
}

/// Whether the atom compares text column number `number` with a quoted text.
fn is_about(number: u32, atom: &Atom) -> bool
    ensures { result ≡ is_about number atom.now }
{
    match atom {
        BothAtom::Second(ThemeAtom::EqText(slot, _) | ThemeAtom::NeText(slot, _)) => {
            slot.number == number
        }
        BothAtom::First(_) | BothAtom::Second(ThemeAtom::EqSlot(_, _) | ThemeAtom::NeSlot(_, _)) =>
            false,
    }
}

/// Puts the conditions on a column, with a comma and a blank between them.
fn put_conditions(text: &mut Text, name: &Name, number: u32, atoms: &[Atom]) -> Result<(), NoMemory>
    ensures { OnOk result (text.new ≡ text.old ++ conditions_text name.now number [] atoms.now) }
{
    let mut lead: &[u8] = b"";
    for atom in atoms {
        lead = put_condition_after(text, name, number, lead, atom)?;
    }
    Ok(())
}

/// Puts the condition that the atom is on the column after `lead`, where it is one. Returns what stands before the next
/// one.
fn put_condition_after<'a>(
    text: &mut Text,
    name: &Name,
    number: u32,
    lead: &'a [u8],
    atom: &Atom,
) -> Result<&'a [u8], NoMemory>
    ensures put { OnOk result (text.new ≡ text.old ++ condition_after name.now number lead.now atom.now) }
    ensures lead { IfOk result (λ next. next.now ≡ next_lead number lead.now atom.now) }
{
    if !is_about(number, atom) {
        return Ok(lead);
    }
    text.put(lead)?;
    put_condition(text, name, atom)?;
    Ok(b", ")
}

/// Puts the condition that an atom is on the column of this name, where it compares that with a quoted text.
fn put_condition(text: &mut Text, name: &Name, atom: &Atom) -> Result<(), NoMemory>
    ensures { OnOk result (text.new ≡ text.old ++ condition_text name.now atom.now) }
{
    match atom {
        BothAtom::Second(ThemeAtom::EqText(_, quoted)) => put_compared(text, name, b"=", quoted),
        BothAtom::Second(ThemeAtom::NeText(_, quoted)) => put_compared(text, name, b"!=", quoted),
        BothAtom::First(_) | BothAtom::Second(ThemeAtom::EqSlot(_, _) | ThemeAtom::NeSlot(_, _)) =>
            Ok(()),
    }
}

/// Puts a name, a sign and a text.
fn put_compared(text: &mut Text, name: &Name, sign: &[u8], quoted: &Name) -> Result<(), NoMemory>
    ensures { OnOk result (text.new ≡ text.old ++ (name.now ++ (sign.now ++ quoted.now))) }
{
    text.put_name(name)?;
    text.put(sign)?;
    text.put_name(quoted)
}
