//! The search for what shows that rows hold somewhere, or nowhere: the dual simplex.
//!
//! A line whose variable may not have its value is pivoted with the first column whose variable helps, until all
//! variables may have their values, and so are a point, or none helps: then the numbers of the line weigh the rows to a
//! false one. At first the line is the one with the greatest value; later it is, after Bland, the first one, which goes
//! round in no circle.

use crate::few::find_by_few;
use crate::hint::Hint;
use crate::reading::{multipliers, point};
use crate::table::{Tableau, TableauLine};
use crate::variable::Variable;
use ded_model::memory::NoMemory;
use ded_model::row::Row;
use ded_weighing::{Witness, slots_of};
use std::alloc::Global;
use std::cmp::Ordering;

/// What is found.
#[derive(Drop)]
pub enum Found {
    /// A point at which the rows may hold.
    Point(Witness),
    /// Numbers of the rows, one for each, that may weigh them to a false row.
    Multipliers(Vec<i128>),
    /// Neither: the search was given up.
    Nothing,
}

/// How the search ends.
#[derive(Clone, Copy)]
pub(crate) enum SearchEnd {
    /// All variables may have their values.
    Feasible,
    /// The variable of the line may not have its value, which lies on this side of 0, and can't get another one.
    Conflict(usize, Ordering),
    /// It was given up.
    Stuck,
}

/// What is to be done next.
#[derive(Clone, Copy)]
enum SearchStep {
    /// A pivot of a line with a column.
    Pivot(usize, usize),
    /// Nothing.
    Halt(SearchEnd),
}

/// How many rows at most are searched all at once. A pivot goes through the lines of all rows, and of many rows most
/// don't matter, so that more are searched by few of them: the sum of two polygons of 64 corners took less than half of
/// the time by it. The number itself wasn't measured against others.
const MOST_ROWS_AT_ONCE: usize = 64;

/// Looks for a point at which the rows hold, or for numbers that show that there is none. Nothing is promised of
/// either.
///
/// # Errors
/// Out of memory.
pub fn find(alloc: Global, rows: &[&Row]) -> Result<Found, NoMemory> {
    find_from(alloc, rows, &mut Hint::new(alloc))
}

/// Looks for what [`find`] does. Among many rows it begins with those of the hint, which is then what the search came
/// upon.
///
/// # Errors
/// Out of memory.
pub(crate) fn find_from(alloc: Global, rows: &[&Row], hint: &mut Hint) -> Result<Found, NoMemory> {
    if rows.len() > MOST_ROWS_AT_ONCE {
        find_by_few(alloc, rows, hint)
    } else {
        find_at_once(alloc, rows)
    }
}

/// Looks among all the rows at once.
///
/// # Errors
/// Out of memory.
pub(crate) fn find_at_once(alloc: Global, rows: &[&Row]) -> Result<Found, NoMemory> {
    let slots = slots_of(alloc, rows)?;
    let mut table = Tableau::new(alloc, rows, &slots)?;
    match solve(&mut table) {
        SearchEnd::Feasible => Ok(Found::Point(point(alloc, &table)?)),
        SearchEnd::Conflict(line, side) => {
            Ok(Found::Multipliers(multipliers(alloc, &table, line, side, rows.len())?))
        }
        SearchEnd::Stuck => Ok(Found::Nothing),
    }
}

/// Pivots until the search ends.
pub(crate) fn solve(table: &mut Tableau) -> SearchEnd {
    let size = table.lines.len().saturating_add(table.columns.len());
    let greedy = size.saturating_mul(3);
    for count in 0..size.saturating_mul(20).saturating_add(200) {
        match next_step(table, count < greedy) {
            SearchStep::Halt(end) => return end,
            SearchStep::Pivot(line, column) => {
                if !table.pivot(line, column) {
                    return SearchEnd::Stuck;
                }
            }
        }
    }
    SearchEnd::Stuck
}

/// What is to be done next: a pivot of the line with the greatest violated value, or of that with the first variable.
fn next_step(table: &Tableau, greedy: bool) -> SearchStep {
    let found = if greedy {
        greatest_violated(&table.lines)
    } else {
        first_violated(&table.lines)
    };
    let Some((at, line)) = found else {
        return SearchStep::Halt(SearchEnd::Feasible);
    };
    let side = line.value.sign();
    match helping(&table.columns, line, side) {
        Some(column) => SearchStep::Pivot(at, column),
        None => SearchStep::Halt(SearchEnd::Conflict(at, side)),
    }
}

/// Of the lines whose variables may not have their values, the last one with the greatest value, and its place.
fn greatest_violated(lines: &[TableauLine]) -> Option<(usize, &TableauLine)> {
    let mut greatest = None;
    let mut most = 0;
    for (at, line) in lines.iter().enumerate() {
        let size = line.value.whole.unsigned_abs();
        if size >= most && line.is_violated() {
            greatest = Some((at, line));
            most = size;
        }
    }
    greatest
}

/// Of the lines whose variables may not have their values, that of the first variable, and its place.
fn first_violated(lines: &[TableauLine]) -> Option<(usize, &TableauLine)> {
    let mut first = None;
    for (at, line) in lines.iter().enumerate() {
        if line.is_violated() && is_line_before(line, first) {
            first = Some((at, line));
        }
    }
    first
}

/// Whether the variable of the line comes before that of the line found so far, if there is one.
fn is_line_before(line: &TableauLine, found: Option<(usize, &TableauLine)>) -> bool {
    match found {
        Some((_, other)) => line.variable.is_before(other.variable),
        None => true,
    }
}

/// The place of the first variable among those of the columns that may change so that the value of the line comes
/// nearer to 0.
pub(crate) fn helping(columns: &[Variable], line: &TableauLine, side: Ordering) -> Option<usize> {
    let mut first = None;
    for (place, (variable, a)) in columns.iter().zip(&line.coefs).enumerate() {
        if variable.may_help(*a, side) && is_column_before(*variable, first) {
            first = Some((place, *variable));
        }
    }
    Some(first?.0)
}

/// Whether the variable comes before that of the column found so far, if there is one.
fn is_column_before(variable: Variable, found: Option<(usize, Variable)>) -> bool {
    match found {
        Some((_, other)) => variable.is_before(other),
        None => true,
    }
}
