//! The scans of a plan, each with atoms that hold wherever it matters.
ghost use Rattle.std.specs.Prelude.{◌≡◌, true, false, IsTrue, IfOk, OnOk};
ghost use Rattle.std.specs.List.{list_all};
ghost use Rattle.ded_model.specs.declared.slot.Slot.{Slot};
ghost use Rattle.ded_model.specs.Logic.{atom};
ghost use Rattle.ded_model.specs.PlanForm.{scan, plan_form, plan_forms};
ghost use Rattle.ded_model.specs.Point.{Point, stands_in};
ghost use Rattle.ded_model.specs.Row.{tuple_holds, tuple_mentions};
ghost use Rattle.ded_plan.specs.Scans.{IsReadWithin, AddsScans, AddsEach, AddsAtoms, RowsHold, is_over, is_theme_over};

use ded_model::memory::NoMemory;
use ded_model::name::Name;
use ded_model::plan::Plan;
use ded_model::slot::{Slot, Slots, stands_in};
use ded_model::tuple::{Atom, BothAtom, ThemeAtom, Tuple};
use ded_tuple::normal_tuple;
use std::alloc::Global;

/// A scan in a plan, with a tuple over its slots that holds wherever the plan asks for it.
#[derive(Drop)]
pub struct ScanWithin {
    pub name: Name,
    pub slots: Slots,
    pub within: Tuple,
}

/// The scans of a plan in order, each with a tuple of atoms that mention only its slots: those of the given tuple, and
/// those of the rows beside the scan or beside a part of the plan that the scan stands in. Where such a part is a
/// projection, atoms from outside it that mention its slot are left out, since inside the slot is another one. Of two
/// readings of the names that agree on each scan at all points at which its tuple holds, the plan holds alike at all
/// points at which the given tuple does.
///
/// # Errors
/// Out of memory.
pub fn scans_within(alloc: Global, plan: &Plan, within: &Tuple) -> Result<Vec<ScanWithin>, NoMemory>
    ensures { IfOk result (λ v. IsReadWithin (plan_form plan.now) within.now v.items) }
{
    let mut scans = Vec::new(alloc);
    add_scans(alloc, &mut scans, plan, within)?;
    Ok(scans)
}

/// Adds the scans of a plan that matters only where the tuple holds.
#[cycle(add_scans)]
fn add_scans(
    alloc: Global,
    scans: &mut Vec<ScanWithin>,
    plan: &Plan,
    within: &Tuple,
) -> Result<(), NoMemory>
    ensures { OnOk result (AddsScans (plan_form plan.now) within.now scans.old.items scans.new.items) }
{
    match plan {
        Plan::Scan(name, slots) => add_scan(alloc, scans, name, slots, within),
        Plan::Rows(_) => Ok(()),
        Plan::Join(parts) => {
            let inner = with_rows_among(alloc, parts, within)?;
            add_each(alloc, scans, parts, &inner)
        }
        Plan::Union(parts) => add_each(alloc, scans, parts, within),
        Plan::Minus(from, taken) => {
            add_scans(alloc, scans, from, within)?;
            add_scans(alloc, scans, taken, within)
        }
        Plan::Not(part) => add_scans(alloc, scans, part, within),
        Plan::Project(slot, part) => {
            let inner = without_slot(alloc, within, *slot)?;
            add_scans(alloc, scans, part, &inner)
        }
    }
}

/// Adds the scans of plans that matter only where the tuple holds.
#[cycle(add_scans)]
fn add_each(
    alloc: Global,
    scans: &mut Vec<ScanWithin>,
    plans: &Vec<Plan>,
    within: &Tuple,
) -> Result<(), NoMemory>
    ensures { OnOk result (AddsEach (plan_forms plans.now.items) within.now scans.old.items scans.new.items) }
{
    for plan in plans {
        add_scans(alloc, scans, plan, within)?;
    }
    Ok(())
}

/// Adds the scan of a name at the slots, with the atoms of the tuple that mention only these.
fn add_scan(
    alloc: Global,
    scans: &mut Vec<ScanWithin>,
    name: &Name,
    slots: &Slots,
    within: &Tuple,
) -> Result<(), NoMemory>
    ensures { OnOk result (AddsScans (atom (scan name.now slots.now)) within.now scans.old.items scans.new.items) }
{
    scans.push(ScanWithin {
        name: name.copy()?,
        slots: slots.copy()?,
        within: over_slots(alloc, within, slots)?,
    })?;
    Ok(())
}

/// The atoms of the tuple that mention only the slots.
fn over_slots(alloc: Global, tuple: &Tuple, slots: &Slots) -> Result<Tuple, NoMemory>
    ensures holds { IfOk result (λ t. (p : Point) → IsTrue (tuple_holds tuple.now p) → IsTrue (tuple_holds t p)) }
    ensures slots { IfOk result (λ t. (s : Slot) → tuple_mentions t s ≡ true → stands_in slots.now s ≡ true) }
{
    let mut atoms = Vec::new(alloc);
    for atom in &tuple.atoms {
        if is_over(atom, &slots.list) {
            atoms.push(atom.copy()?)?;
        }
    }
    normal_tuple(alloc, atoms)
}

/// The atoms of the tuple that don't mention the slot.
fn without_slot(alloc: Global, tuple: &Tuple, slot: Slot) -> Result<Tuple, NoMemory>
    ensures holds { IfOk result (λ t. (p : Point) → IsTrue (tuple_holds tuple.now p) → IsTrue (tuple_holds t p)) }
    ensures slot { IfOk result (λ t. tuple_mentions t slot ≡ false) }
{
    let mut atoms = Vec::new(alloc);
    for atom in &tuple.atoms {
        if !atom.mentions(slot) {
            atoms.push(atom.copy()?)?;
        }
    }
    normal_tuple(alloc, atoms)
}

/// The atoms of the tuple and of the plans that are rows.
fn with_rows_among(alloc: Global, plans: &Vec<Plan>, tuple: &Tuple) -> Result<Tuple, NoMemory>
    ensures { IfOk result (λ t. (p : Point) → IsTrue (tuple_holds tuple.now p) → RowsHold (plan_forms plans.now.items) p
        → IsTrue (tuple_holds t p)) }
{
    let mut atoms = Vec::new(alloc);
    add_atoms(&mut atoms, tuple)?;
    for plan in plans {
        if let Plan::Rows(rows) = plan {
            add_atoms(&mut atoms, rows)?;
        }
    }
    normal_tuple(alloc, atoms)
}

/// Adds the atoms of the tuple.
fn add_atoms(atoms: &mut Vec<Atom>, tuple: &Tuple) -> Result<(), NoMemory>
    ensures { OnOk result (AddsAtoms tuple.now atoms.old.items atoms.new.items) }
{
    for atom in &tuple.atoms {
        atoms.push(atom.copy()?)?;
    }
    Ok(())
}

/// Whether the atom mentions only slots of the list.
fn is_over(atom: &Atom, slots: &[Slot]) -> bool
    ensures { result ≡ is_over slots.now atom.now }
{
    match atom {
        BothAtom::First(row) => are_coefs_over(row.coefs.list(), slots),
        BothAtom::Second(atom) => is_theme_over(atom, slots),
    }
}

/// Whether the coefficients are of slots of the list alone.
fn are_coefs_over(coefs: &[(Slot, i128)], slots: &[Slot]) -> bool
    ensures { result ≡ list_all (λ c. stands_in slots.now c.0) coefs.now }
{
    coefs.iter().all(|coef| stands_in(slots, coef.0))
}

/// Whether the text atom mentions only slots of the list.
fn is_theme_over(atom: &ThemeAtom, slots: &[Slot]) -> bool
    ensures { result ≡ is_theme_over slots.now atom.now }
{
    match atom {
        ThemeAtom::EqText(slot, _) | ThemeAtom::NeText(slot, _) => stands_in(slots, *slot),
        ThemeAtom::EqSlot(left, right) | ThemeAtom::NeSlot(left, right) => {
            stands_in(slots, *left) && stands_in(slots, *right)
        }
    }
}
