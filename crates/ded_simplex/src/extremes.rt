//! The search for how far a slot reaches where rows hold: the simplex, from a point at which they do.
//!
//! The line of the slot is pivoted with the first column whose variable brings the slot further, against the line whose
//! variable is the first that may go no further, until no column does: then the slot is at its end, and the numbers of
//! its line show it. Where no line stops the variable of a column, the slot has no end.

use crate::reading::{corner, end_multipliers, multipliers, point, ray};
use crate::search::{SearchEnd, helping, solve};
use crate::table::{Tableau, TableauLine};
use crate::variable::Variable;
use ded_model::memory::NoMemory;
use ded_model::row::Row;
use ded_model::slot::{Slot, stands_in};
use ded_weighing::{Witness, slots_of};
use std::alloc::Global;
use std::cmp::Ordering;

/// How far the values of a slot go to one side.
#[derive(Drop)]
pub(crate) enum SlotReach {
    /// To the value at the point. Numbers, first that of the row which says that a value is beyond, may show that none
    /// is.
    To(Witness, Vec<i128>),
    /// Up to that value, which isn't attained.
    Near(Witness, Vec<i128>),
    /// Along this direction, without end.
    Endless(Witness),
    /// The search was given up.
    Unknown,
}

/// Between which values a slot stands.
#[derive(Drop)]
pub(crate) enum SlotRange {
    /// Between none: numbers that may refute the rows.
    Nowhere(Vec<i128>),
    /// A point at which the rows may hold, and how far the slot reaches below and above.
    Somewhere(Witness, SlotReach, SlotReach),
    /// The search was given up.
    Unknown,
}

/// Where the pivots end.
#[derive(Clone, Copy)]
enum Stop {
    /// At this line, of the slot.
    Line(usize),
    /// Nowhere: the variable of the column may leave 0 for this side without end.
    Column(usize, Ordering),
    /// At a step too many.
    Stuck,
}

/// What is to be done next.
#[derive(Clone, Copy)]
enum ExtremeStep {
    /// A pivot of a line with a column.
    Pivot(usize, usize),
    /// Nothing.
    Halt(Stop),
}

/// Looks for the values between which the slot stands where the rows hold. Nothing is promised of them.
///
/// # Errors
/// Out of memory.
pub(crate) fn find_range(alloc: Global, rows: &[&Row], slot: Slot) -> Result<SlotRange, NoMemory> {
    let slots = slots_of(alloc, rows)?;
    let mut table = Tableau::new(alloc, rows, &slots)?;
    match solve(&mut table) {
        SearchEnd::Conflict(line, side) => {
            Ok(SlotRange::Nowhere(multipliers(alloc, &table, line, side, rows.len())?))
        }
        SearchEnd::Feasible => {
            let inside = point(alloc, &table)?;
            let is_free = !stands_in(&slots, slot);
            let below = reached(
                alloc,
                &mut table,
                slot,
                is_free,
                Ordering::Greater,
                rows.len(),
            )?;
            let above = reached(alloc, &mut table, slot, is_free, Ordering::Less, rows.len())?;
            Ok(SlotRange::Somewhere(inside, below, above))
        }
        SearchEnd::Stuck => Ok(SlotRange::Unknown),
    }
}

/// How far the slot, which no row mentions where it is free, gets from this side to the other one.
///
/// # Errors
/// Out of memory.
fn reached(
    alloc: Global,
    table: &mut Tableau,
    slot: Slot,
    is_free: bool,
    side: Ordering,
    count: usize,
) -> Result<SlotReach, NoMemory> {
    if is_free {
        return Ok(SlotReach::Endless(alone(alloc, slot, side)?));
    }
    match pushed(table, slot, side) {
        Stop::Line(at) => {
            let numbers = end_multipliers(alloc, table, at, side, count)?;
            if is_attained(&table.lines, at) {
                Ok(SlotReach::To(point(alloc, table)?, numbers))
            } else {
                Ok(SlotReach::Near(corner(alloc, table)?, numbers))
            }
        }
        Stop::Column(column, towards) => Ok(SlotReach::Endless(ray(
            alloc, table, column, towards,
        )?)),
        Stop::Stuck => Ok(SlotReach::Unknown),
    }
}

/// The direction in which the slot alone changes, from this side to the other one.
///
/// # Errors
/// Out of memory.
fn alone(alloc: Global, slot: Slot, side: Ordering) -> Result<Witness, NoMemory> {
    let mut values = Vec::new(alloc);
    values.push((slot, if side.is_gt() { -1 } else { 1 }))?;
    Ok(Witness {
        values,
        denominator: 0,
    })
}

/// Whether the value of the line has no arbitrarily small part.
fn is_attained(lines: &[TableauLine], at: usize) -> bool {
    match lines.get(at) {
        Some(line) => line.value.small == 0,
        None => false,
    }
}

/// Pivots until the slot gets no further from this side to the other one.
fn pushed(table: &mut Tableau, slot: Slot, side: Ordering) -> Stop {
    let size = table.lines.len().saturating_add(table.columns.len());
    for _ in 0..size.saturating_mul(20).saturating_add(200) {
        match next_step(table, slot, side) {
            ExtremeStep::Halt(stop) => return stop,
            ExtremeStep::Pivot(line, column) => {
                if !table.pivot(line, column) {
                    return Stop::Stuck;
                }
            }
        }
    }
    Stop::Stuck
}

/// What is to be done next.
fn next_step(table: &Tableau, slot: Slot, side: Ordering) -> ExtremeStep {
    let Some((at, line)) = line_of(&table.lines, slot) else {
        return match column_of(&table.columns, slot) {
            Some(column) => stopped(table, column, side.reverse()),
            None => ExtremeStep::Halt(Stop::Stuck),
        };
    };
    match helping(&table.columns, line, side) {
        Some(column) => stopped(table, column, towards(line, column, side)),
        None => ExtremeStep::Halt(Stop::Line(at)),
    }
}

/// To which side of 0 the variable of the column goes where the line's value is to get away from this side.
fn towards(line: &TableauLine, column: usize, side: Ordering) -> Ordering {
    match line.coefs.get(column) {
        Some(a) if a.cmp(&0) == side => Ordering::Less,
        _ => Ordering::Greater,
    }
}

/// A pivot of the column with the first line that stops its variable on the way to this side, or the end where none
/// does.
fn stopped(table: &Tableau, column: usize, towards: Ordering) -> ExtremeStep {
    match stopping(&table.lines, column, towards) {
        Some(line) => ExtremeStep::Pivot(line, column),
        None => ExtremeStep::Halt(Stop::Column(column, towards)),
    }
}

/// The line of the slot, and its place.
fn line_of(lines: &[TableauLine], slot: Slot) -> Option<(usize, &TableauLine)> {
    lines
        .iter()
        .enumerate()
        .find(|(_, line)| line.variable.is_slot(slot))
}

/// The column of the slot.
fn column_of(columns: &[Variable], slot: Slot) -> Option<usize> {
    columns.iter().position(|variable| variable.is_slot(slot))
}

/// The place of the line whose variable first gets to where it may go no further, as that of the column goes to this
/// side.
fn stopping(lines: &[TableauLine], column: usize, towards: Ordering) -> Option<usize> {
    let mut first = None;
    for (at, line) in lines.iter().enumerate() {
        if line.stops(column, towards) && is_stopped_before(line, first, column) {
            first = Some((at, line));
        }
    }
    Some(first?.0)
}

/// Whether the line stops the variable of the column before the line found so far, if there is one.
fn is_stopped_before(
    line: &TableauLine,
    found: Option<(usize, &TableauLine)>,
    column: usize,
) -> bool {
    match found {
        Some((_, other)) => line.stops_before(other, column),
        None => true,
    }
}
