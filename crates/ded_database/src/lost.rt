//! The lines that the goal of a view may lose where a relation loses a tuple.
ghost use Rattle.std.specs.Prelude.{◌≡◌, true, IfOk, IfSome};
ghost use Rattle.std.specs.List.{AllByRecursion};
ghost use Rattle.ded_model.specs.Lines.{atoms_lines};
ghost use Rattle.ded_database.specs.Changes.{before, after, IsDelete};
ghost use Rattle.ded_database.specs.Lost.{AreReadAmong, AreOverColumns, AddsRead, AreLost, LosesOnly};
ghost use Rattle.ded_database.specs.Marks.{mark_adds, IsMark};

use crate::arguments::{add_arguments, binds, own_slots};
use crate::change::Renewal;
use crate::laws;
use crate::lines::add_lines;
use ded_algebra::column_pairs;
use ded_model::goal::Places;
use ded_model::memory::NoMemory;
use ded_model::name::Heading;
use ded_model::row::Row;
use ded_model::tuple::{Atom, Tuple};
use std::alloc::Global;

/// The lines that the goal of the view has before the delete, and may have no more then: those of the atoms of the
/// deleted tuple, read into the arguments of each atom of the relation. None where they can't be told: where an
/// argument is no slot of its own, or a quantifier binds a slot that one of these lines mentions.
///
/// # Errors
/// Out of memory.
pub(crate) fn lost_lines(
    alloc: Global,
    renewal: &Renewal<'_, '_>,
    gone: &Tuple,
    atoms: &[Atom],
) -> Result<Option<Vec<Row>>, NoMemory>
    requires delete { IsDelete (before renewal.now.change.now)
        (after renewal.now.change.now) renewal.now.change.now.name.now gone.now }
    requires atoms { AreLost (before renewal.now.change.now)
        (after renewal.now.change.now) renewal.now.change.now.name.now gone.now atoms.now }
    requires mark { IsMark (before renewal.now.change.now) renewal.now.mark.now }
    requires adds { mark_adds renewal.now.mark.now renewal.now.change.now.name.now ≡ true }
    ensures { IfOk result (λ o. IfSome o (λ v. LosesOnly (before renewal.now.change.now)
        (after renewal.now.change.now) renewal.now.mark.now.name v.items)) }
{
    laws::nothing_beside();
    let change = renewal.change;
    let Some(goal) = change.snapshot.goal(&renewal.mark.name) else {
        return Ok(None);
    };
    let Some(heading) = change.snapshot.heading(change.name) else {
        return Ok(None);
    };
    let mut all = Vec::new(alloc);
    add_arguments(&mut all, goal, change.name)?;
    let Some(lines) = read_lines(alloc, &all, heading, atoms)? else {
        return Ok(None);
    };
    if binds(goal, &lines) {
        return Ok(None);
    }
    Ok(Some(lines))
}

/// The lines of the atoms, read into each of the lists of arguments. None where an argument is no slot of its own.
///
/// # Errors
/// Out of memory.
fn read_lines(
    alloc: Global,
    all: &[Places],
    heading: &Heading,
    atoms: &[Atom],
) -> Result<Option<Vec<Row>>, NoMemory>
    requires { AreOverColumns heading.now atoms.now }
    ensures { IfOk result (λ o. IfSome o (λ v. AllByRecursion (AreReadAmong (atoms_lines atoms.now) v.items) all.now)) }
{
    let mut lines = Vec::new(alloc);
    for places in all {
        if !add_read(alloc, &mut lines, places, heading, atoms)? {
            return Ok(None);
        }
    }
    Ok(Some(lines))
}

/// Adds the lines of the atoms, read into the arguments, and says so. False where an argument is no slot of its own.
///
/// # Errors
/// Out of memory. Some may be added then.
fn add_read(
    alloc: Global,
    lines: &mut Vec<Row>,
    places: &Places,
    heading: &Heading,
    atoms: &[Atom],
) -> Result<bool, NoMemory>
    requires { AreOverColumns heading.now atoms.now }
    ensures { IfOk result (λ b. b ≡ true → AddsRead
        (atoms_lines atoms.now) places.now lines.old.items lines.new.items) }
{
    let Some(slots) = own_slots(alloc, &places.list, &heading.columns)? else {
        return Ok(false);
    };
    let pairs = column_pairs(alloc, &slots)?;
    add_lines(lines, atoms, &pairs)?;
    Ok(true)
}
