//! The rational slots of plans, by which joins find their pairs.
ghost use Rattle.std.specs.Prelude.{IfOk, OnOk};
ghost use Rattle.ded_genrel.specs.Rounds.{AreRational};

use ded_model::memory::NoMemory;
use ded_model::plan::Plan;
use ded_model::slot::{Slot, Sort};
use ded_model::tuple::{Atom, BothAtom};
use std::alloc::Global;

/// Rational slots: those that the plan mentions freely, each once.
///
/// # Errors
/// Out of memory.
#[cycle(rational_slots)]
pub(crate) fn rational_slots(alloc: Global, plan: &Plan) -> Result<Vec<Slot>, NoMemory>
    ensures { IfOk result (λ v. AreRational v.items) }
{
    match plan {
        Plan::Scan(_, slots) => rationals(alloc, &slots.list),
        Plan::Rows(tuple) => slots_of_atoms(alloc, &tuple.atoms),
        Plan::Join(parts) | Plan::Union(parts) => slots_of_parts(alloc, parts),
        Plan::Minus(from, taken) => {
            let mut slots = rational_slots(alloc, from)?;
            add_all(&mut slots, &rational_slots(alloc, taken)?)?;
            Ok(slots)
        }
        Plan::Not(part) => rational_slots(alloc, part),
        Plan::Project(slot, part) => others(alloc, &rational_slots(alloc, part)?, *slot),
    }
}

/// The rational slots that some of the parts mention freely, each once.
#[cycle(rational_slots)]
fn slots_of_parts(alloc: Global, parts: &Vec<Plan>) -> Result<Vec<Slot>, NoMemory>
    ensures { IfOk result (λ v. AreRational v.items) }
{
    let mut slots = Vec::new(alloc);
    for part in parts {
        add_all(&mut slots, &rational_slots(alloc, part)?)?;
    }
    Ok(slots)
}

/// The rational slots that those of the parts mention that are rows and text atoms alone, each once.
///
/// # Errors
/// Out of memory.
pub(crate) fn slots_of_rows(alloc: Global, parts: &[Plan]) -> Result<Vec<Slot>, NoMemory>
    ensures { IfOk result (λ v. AreRational v.items) }
{
    let mut slots = Vec::new(alloc);
    for part in parts {
        if let Plan::Rows(tuple) = part {
            add_all(&mut slots, &slots_of_atoms(alloc, &tuple.atoms)?)?;
        }
    }
    Ok(slots)
}

/// The rational slots that rows among the atoms mention, each once.
fn slots_of_atoms(alloc: Global, atoms: &[Atom]) -> Result<Vec<Slot>, NoMemory>
    ensures { IfOk result (λ v. AreRational v.items) }
{
    let mut slots = Vec::new(alloc);
    for atom in atoms {
        if let BothAtom::First(row) = atom {
            add_coefs(&mut slots, row.coefs.list())?;
        }
    }
    Ok(slots)
}

/// The slots of the list that are rational.
fn rationals(alloc: Global, list: &[Slot]) -> Result<Vec<Slot>, NoMemory>
    ensures { IfOk result (λ v. AreRational v.items) }
{
    let mut slots = Vec::new(alloc);
    add_all(&mut slots, list)?;
    Ok(slots)
}

/// The slots of the list, but for the given one.
fn others(alloc: Global, list: &[Slot], but: Slot) -> Result<Vec<Slot>, NoMemory>
    ensures { IfOk result (λ v. AreRational v.items) }
{
    let mut slots = Vec::new(alloc);
    for slot in list {
        if *slot != but {
            add(&mut slots, *slot)?;
        }
    }
    Ok(slots)
}

/// Those slots of the one list that stand in the other.
///
/// # Errors
/// Out of memory.
pub(crate) fn shared(alloc: Global, list: &[Slot], other: &[Slot]) -> Result<Vec<Slot>, NoMemory>
    ensures { IfOk result (λ v. AreRational v.items) }
{
    let mut slots = Vec::new(alloc);
    for slot in list {
        if other.contains(slot) {
            add(&mut slots, *slot)?;
        }
    }
    Ok(slots)
}

/// Adds the slots that aren't there yet and are rational.
///
/// # Errors
/// Out of memory.
pub(crate) fn add_all(slots: &mut Vec<Slot>, more: &[Slot]) -> Result<(), NoMemory>
    requires { AreRational slots.old.items }
    ensures { OnOk result (AreRational slots.new.items) }
{
    for slot in more {
        add(slots, *slot)?;
    }
    Ok(())
}

/// Adds the slots of coefficients.
fn add_coefs(slots: &mut Vec<Slot>, coefs: &[(Slot, i128)]) -> Result<(), NoMemory>
    requires { AreRational slots.old.items }
    ensures { OnOk result (AreRational slots.new.items) }
{
    for (slot, _) in coefs {
        add(slots, *slot)?;
    }
    Ok(())
}

/// Adds the slot, unless it is there already or a text's.
fn add(slots: &mut Vec<Slot>, slot: Slot) -> Result<(), NoMemory>
    requires { AreRational slots.old.items }
    ensures { OnOk result (AreRational slots.new.items) }
{
    if slot.sort == Sort::Rat && !slots.contains(&slot) {
        slots.push(slot)?;
    }
    Ok(())
}
