//! The arguments of the atoms of a name in a goal, and the slots that its quantifiers bind.
ghost use Rattle.std.specs.Prelude.{◌≡◌, true, false, IfOk, OnOk, IfSome};
ghost use Rattle.ded_model.specs.Goal.{member, goal_form, goal_forms};
ghost use Rattle.ded_model.specs.Logic.{atom};
ghost use Rattle.ded_model.specs.Point.{slot};
ghost use Rattle.ded_database.specs.Lost.{lines_mention, binds_one, binds, any_binds, with_all, with_all_of, IsOwnSlot};
ghost use Rattle.ded_database.specs.Lost.{AreOwnSlots};

use ded_model::goal::{Goal, Place, Places};
use ded_model::memory::NoMemory;
use ded_model::name::{Column, Name};
use ded_model::row::Row;
use ded_model::slot::{Slot, Sort, stands_in};
use std::alloc::Global;

/// Adds the arguments of each atom of the name in the goal.
///
/// # Errors
/// Out of memory. Some may be added then.
#[cycle(add_arguments)]
pub(crate) fn add_arguments(all: &mut Vec<Places>, goal: &Goal, name: &Name) -> Result<(), NoMemory>
    ensures { OnOk result (all.new.items ≡ with_all name.now all.old.items (goal_form goal.now)) }
{
    match goal {
        Goal::True | Goal::False | Goal::Linear(_) | Goal::Theme(_) => Ok(()),
        Goal::Member(used, places) => add_if_same(all, used, places, name),
        Goal::Not(part) => add_arguments(all, part, name),
        Goal::And(parts) | Goal::Or(parts) => add_all_arguments(all, parts, name),
        Goal::Implies(left, right) => {
            add_arguments(all, left, name)?;
            add_arguments(all, right, name)
        }
        Goal::Exists(_, part) | Goal::Forall(_, part) => add_arguments(all, part, name),
    }
}

/// Adds the arguments of each atom of the name in one of the goals.
#[cycle(add_arguments)]
fn add_all_arguments(all: &mut Vec<Places>, goals: &Vec<Goal>, name: &Name) -> Result<(), NoMemory>
    ensures { OnOk result (all.new.items ≡ with_all_of name.now all.old.items (goal_forms goals.now.items)) }
{
    for goal in goals {
        add_arguments(all, goal, name)?;
    }
    Ok(())
}

/// Adds the arguments, where the used name is the name.
fn add_if_same(
    all: &mut Vec<Places>,
    used: &Name,
    places: &Places,
    name: &Name,
) -> Result<(), NoMemory>
    ensures { OnOk result (all.new.items ≡ with_all name.now all.old.items (atom (member used.now places.now))) }
{
    if used.is_same(name) {
        all.push(places.copy()?)?;
    }
    Ok(())
}

/// Whether a quantifier of the goal ranges over numbers and binds a slot that some of the lines mentions.
#[cycle(binds)]
pub(crate) fn binds(goal: &Goal, lines: &[Row]) -> bool
    ensures { result ≡ binds (lines_mention lines.now) (goal_form goal.now) }
{
    match goal {
        Goal::True | Goal::False | Goal::Linear(_) | Goal::Theme(_) | Goal::Member(_, _) => false,
        Goal::Not(part) => binds(part, lines),
        Goal::And(parts) | Goal::Or(parts) => some_binds(parts, lines),
        Goal::Implies(left, right) => binds(left, lines) || binds(right, lines),
        Goal::Exists(slot, part) | Goal::Forall(slot, part) => {
            is_mentioned(*slot, lines) || binds(part, lines)
        }
    }
}

/// Whether in one of the goals a quantifier does.
#[cycle(binds)]
fn some_binds(goals: &Vec<Goal>, lines: &[Row]) -> bool
    ensures { result ≡ any_binds (lines_mention lines.now) (goal_forms goals.now.items) }
{
    for goal in goals {
        if binds(goal, lines) {
            return true;
        }
    }
    false
}

/// Whether the slot is one of numbers that some of the lines mentions.
fn is_mentioned(bound: Slot, lines: &[Row]) -> bool
    ensures { result ≡ binds_one (lines_mention lines.now) bound.sort (slot bound) }
{
    match bound.sort {
        Sort::Rat => mention(lines, bound),
        Sort::Text => false,
    }
}

/// Whether some of the lines mentions the slot.
fn mention(lines: &[Row], slot: Slot) -> bool
    ensures { result ≡ lines_mention lines.now slot }
{
    lines.iter().any(|line| line.mentions(slot))
}

/// The arguments, where they are slots of the columns' sorts, each once.
///
/// # Errors
/// Out of memory.
pub(crate) fn own_slots(
    alloc: Global,
    places: &[Place],
    columns: &[Column],
) -> Result<Option<Vec<Slot>>, NoMemory>
    ensures { IfOk result (λ o. IfSome o (λ v. AreOwnSlots columns.now places.now v.items)) }
{
    if places.len() != columns.len() {
        return Ok(None);
    }
    let mut slots = Vec::with_capacity(alloc, places.len())?;
    for i in 0..places.len() {
        match own_slot(&places[i], &columns[i], &slots) {
            Some(slot) => slots.push(slot)?,
            None => return Ok(None),
        }
    }
    Ok(Some(slots))
}

/// The argument, where it is a slot of the column's sort that isn't one of the others.
fn own_slot(place: &Place, column: &Column, others: &[Slot]) -> Option<Slot>
    ensures { IfSome result (IsOwnSlot column.now place.now others.now) }
{
    match place {
        Place::At(slot) if slot.sort == column.sort && !stands_in(others, *slot) => Some(*slot),
        Place::At(_) | Place::Value(_) | Place::Quoted(_) => None,
    }
}
