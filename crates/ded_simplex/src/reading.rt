//! What the table shows where the search ends: a point, or numbers of rows.

use crate::table::{Tableau, TableauLine};
use crate::variable::Variable;
use ded_model::memory::NoMemory;
use ded_num::gcd;
use ded_weighing::Witness;
use std::alloc::Global;
use std::cmp::Ordering;

/// The point at which the variables of the columns are 0, where the arbitrarily small number is small enough for the
/// rows by `<`.
///
/// # Errors
/// Out of memory.
pub(crate) fn point(alloc: Global, table: &Tableau) -> Result<Witness, NoMemory> {
    let scale = scale(&table.lines);
    let mut values = Vec::new(alloc);
    for line in &table.lines {
        if let Variable::Slot(slot) = line.variable {
            values.push((slot, line.value.times(scale)))?;
        }
    }
    let mut witness = Witness {
        values,
        denominator: table.denominator.wrapping_mul(scale),
    };
    shorten_point(&mut witness);
    Ok(witness)
}

/// The point at which the variables of the columns are 0, with 0 for the arbitrarily small number.
///
/// # Errors
/// Out of memory.
pub(crate) fn corner(alloc: Global, table: &Tableau) -> Result<Witness, NoMemory> {
    let mut values = Vec::new(alloc);
    for line in &table.lines {
        if let Variable::Slot(slot) = line.variable {
            values.push((slot, line.value.whole))?;
        }
    }
    let mut witness = Witness {
        values,
        denominator: table.denominator,
    };
    shorten_point(&mut witness);
    Ok(witness)
}

/// The direction, over 0, in which the slots change where the variable of the column leaves 0 for this side of it.
///
/// # Errors
/// Out of memory.
pub(crate) fn ray(
    alloc: Global,
    table: &Tableau,
    column: usize,
    side: Ordering,
) -> Result<Witness, NoMemory> {
    let mut values = Vec::new(alloc);
    if let Some(Variable::Slot(slot)) = table.columns.get(column) {
        values.push((*slot, on_side(table.denominator, side)))?;
    }
    for line in &table.lines {
        if let (Variable::Slot(slot), Some(a)) = (line.variable, line.coefs.get(column)) {
            values.push((slot, on_side(*a, side)))?;
        }
    }
    let mut witness = Witness {
        values,
        denominator: 0,
    };
    shorten_point(&mut witness);
    Ok(witness)
}

/// The numbers that a line shows whose variable, a slot, can't get beyond its value against this side of it: that of
/// the row which says that it does, in lowest terms, and behind it those of the rows.
///
/// # Errors
/// Out of memory.
pub(crate) fn end_multipliers(
    alloc: Global,
    table: &Tableau,
    at: usize,
    side: Ordering,
    count: usize,
) -> Result<Vec<i128>, NoMemory> {
    let mut numbers = multipliers_of(alloc, table, at, side, count)?;
    let first = match table.lines.get(at) {
        Some(line) => common_divisor(line.value.whole, table.denominator),
        None => 0,
    };
    numbers.insert(0, first)?;
    shorten(&mut numbers);
    Ok(numbers)
}

/// Into how many parts 1 has to be divided, so that with such a part as the arbitrarily small number no sum of a row
/// gets above 0.
fn scale(lines: &[TableauLine]) -> i128 {
    let mut scale = 1;
    for line in lines {
        if let Variable::Row(_, _) = line.variable {
            scale = scale.max(line.value.parts());
        }
    }
    scale
}

/// Divides the numbers by what divides them all.
fn shorten_point(witness: &mut Witness) {
    let by = witness.values.iter().fold(
        witness.denominator,
        |by, value| common_divisor(by, value.1),
    );
    if by > 1 {
        witness.denominator /= by;
        for value in witness.values.iter_mut() {
            value.1 /= by;
        }
    }
}

/// The numbers of the rows that a line shows whose variable can't come nearer to 0 from this side: its own and those of
/// the columns weigh them to its value alone.
///
/// # Errors
/// Out of memory.
pub(crate) fn multipliers(
    alloc: Global,
    table: &Tableau,
    at: usize,
    side: Ordering,
    count: usize,
) -> Result<Vec<i128>, NoMemory> {
    let mut numbers = multipliers_of(alloc, table, at, side, count)?;
    shorten(&mut numbers);
    Ok(numbers)
}

/// The same, which may have a common divisor.
///
/// # Errors
/// Out of memory.
fn multipliers_of(
    alloc: Global,
    table: &Tableau,
    at: usize,
    side: Ordering,
    count: usize,
) -> Result<Vec<i128>, NoMemory> {
    let mut numbers = vec![in alloc; 0; count]?;
    if let Some(line) = table.lines.get(at) {
        put(
            &mut numbers,
            line.variable,
            on_side(table.denominator, side),
        );
        put_columns(&mut numbers, &table.columns, line, side);
    }
    Ok(numbers)
}

/// Puts the numbers of the line to the rows that the variables of the columns are.
fn put_columns(numbers: &mut [i128], columns: &[Variable], line: &TableauLine, side: Ordering) {
    for (variable, a) in columns.iter().zip(&line.coefs) {
        put(numbers, *variable, on_side(a.wrapping_neg(), side));
    }
}

/// Puts the number to the row that the variable is, if it is one.
fn put(numbers: &mut [i128], variable: Variable, number: i128) {
    if let Variable::Row(i, _) = variable {
        if let Some(place) = numbers.get_mut(i) {
            *place = number;
        }
    }
}

/// The number, or its negative where the side is below 0.
fn on_side(number: i128, side: Ordering) -> i128 {
    if side.is_lt() {
        number.wrapping_neg()
    } else {
        number
    }
}

/// Divides the numbers by what divides them all.
fn shorten(numbers: &mut [i128]) {
    let by = numbers
        .iter()
        .fold(0, |by, number| common_divisor(by, *number));
    if by > 1 {
        for number in numbers.iter_mut() {
            *number /= by;
        }
    }
}

/// The greatest common divisor; 1 for the one number without a negative.
fn common_divisor(a: i128, b: i128) -> i128 {
    if a == 1 || a == i128::MIN || b == i128::MIN {
        1
    } else {
        gcd(a, b)
    }
}
