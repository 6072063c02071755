//! The table of the search: sums of rows, each a combination of variables that are 0.
//!
//! Its variables are the slots, of which each may have any value, and the sums of the rows. In a line one variable,
//! times a denominator, is a sum of the others, of the variables of the columns. These are all 0, so that its value is
//! what stands beside its coefficients. A pivot lets the variables of a line and of a column change places.
//!
//! All lines share a denominator, which is the number at the last pivot. So, after Bareiss, each number in the table is
//! a minor of the coefficients that it began with, and quotients are exact. All arithmetic is modulo 2 ^ 128: the
//! numbers are right as long as they are short themselves, however long the products on the way are. Nothing is proved
//! of that, since what is found by the table is checked.

use crate::exact::Divisor;
use crate::variable::{Value, Variable};
use ded_model::memory::NoMemory;
use ded_model::row::{Row, RowOp};
use ded_model::slot::Slot;
use std::alloc::Global;
use std::cmp::Ordering;
use std::mem;

/// A variable as a sum of those of the columns, and its value, over the denominator of the table.
#[derive(Drop)]
pub(crate) struct TableauLine {
    pub variable: Variable,
    pub coefs: Vec<i128>,
    pub value: Value,
}

impl TableauLine {
    /// The line of the row, the i-th one.
    fn new(alloc: Global, i: usize, row: &Row, slots: &[Slot]) -> Result<TableauLine, NoMemory> {
        let mut coefs = Vec::with_capacity(alloc, slots.len())?;
        for slot in slots {
            coefs.push(row.coefs.at(*slot))?;
        }
        Ok(TableauLine {
            variable: Variable::Row(i, row.op),
            coefs,
            value: Value {
                whole: row.constant,
                small: if row.op == RowOp::Below { 1 } else { 0 },
            },
        })
    }

    /// Whether the variable may not have its value.
    pub fn is_violated(&self) -> bool {
        !self.variable.may_be(self.value.sign())
    }

    /// Whether the variable may not go on for ever as that of the column goes to this side of 0.
    pub fn stops(&self, column: usize, towards: Ordering) -> bool {
        match self.coefs.get(column) {
            Some(a) => self.variable.is_stopped(a.cmp(&0), towards),
            None => false,
        }
    }

    /// Whether it is stopped before that of another line, or at once with it and comes first.
    pub fn stops_before(&self, other: &TableauLine, column: usize) -> bool {
        let (Some(a), Some(b)) = (self.coefs.get(column), other.coefs.get(column)) else {
            return false;
        };
        let (a, b) = (a.saturating_abs(), b.saturating_abs());
        let order = product_order(self.value.whole, b, other.value.whole, a).then(product_order(
            self.value.small,
            b,
            other.value.small,
            a,
        ));
        order.is_gt() || (order.is_eq() && self.variable.is_before(other.variable))
    }

    /// Solves the line for the variable of a column, whose coefficient becomes the denominator, and gives that; none
    /// where it would be no positive number.
    fn solve(&mut self, column: usize, denominator: i128) -> Option<i128> {
        let entry = self.coefs.get_mut(column)?;
        let pivot = mem::replace(entry, denominator.wrapping_neg());
        if pivot > 0 {
            self.negate();
            Some(pivot)
        } else {
            pivot.checked_neg().filter(|negative| *negative > 0)
        }
    }

    fn negate(&mut self) {
        self.value = self.value.negative();
        for a in self.coefs.iter_mut() {
            *a = a.wrapping_neg();
        }
    }

    /// Puts the solved line in the place of the variable of the column.
    fn replace(&mut self, solved: &TableauLine, exchange: &Exchange) {
        let Some(entry) = self.coefs.get_mut(exchange.column) else {
            return;
        };
        let factor = mem::replace(entry, 0);
        if factor == 0 && exchange.is_plain {
            return;
        }
        self.value.whole = exchange.mix(self.value.whole, factor, solved.value.whole);
        self.value.small = exchange.mix(self.value.small, factor, solved.value.small);
        for (a, b) in self.coefs.iter_mut().zip(&solved.coefs) {
            *a = exchange.mix(*a, factor, *b);
        }
    }
}

/// How the product of the first two numbers compares with that of the others, as far as they are no longer than a
/// number may be.
fn product_order(a: i128, b: i128, c: i128, d: i128) -> Ordering {
    a.saturating_mul(b).cmp(&c.saturating_mul(d))
}

/// What a pivot does to the numbers of the other lines.
#[derive(Drop)]
struct Exchange {
    /// The column of the variable that gets a line.
    column: usize,
    /// The denominator to be.
    pivot: i128,
    /// The denominator that was.
    divisor: Divisor,
    /// Whether both are the same.
    is_plain: bool,
}

impl Exchange {
    /// The number over the denominator to be, with a multiple of another.
    fn mix(&self, number: i128, factor: i128, other: i128) -> i128 {
        if other == 0 && (self.is_plain || number == 0) {
            return number;
        }
        self.divisor.quotient(
            number
                .wrapping_mul(self.pivot)
                .wrapping_add(factor.wrapping_mul(other)),
        )
    }
}

/// The lines, and the variables of the columns.
#[derive(Drop)]
pub(crate) struct Tableau {
    pub columns: Vec<Variable>,
    pub lines: Vec<TableauLine>,
    pub denominator: i128,
}

impl Tableau {
    /// The table of the rows over the slots, a line for each.
    pub fn new(alloc: Global, rows: &[&Row], slots: &[Slot]) -> Result<Tableau, NoMemory> {
        Ok(Tableau {
            columns: columns_of(alloc, slots)?,
            lines: lines_of(alloc, rows, slots)?,
            denominator: 1,
        })
    }

    /// The variables of the line and of the column change places. False where they can't.
    pub fn pivot(&mut self, line: usize, column: usize) -> bool {
        let Some((before, from)) = self.lines.split_at_mut_checked(line) else {
            return false;
        };
        let Some((solved, after)) = from.split_first_mut() else {
            return false;
        };
        let Some(entering) = self.columns.get_mut(column) else {
            return false;
        };
        let Some(pivot) = solved.solve(column, self.denominator) else {
            return false;
        };
        mem::swap(&mut solved.variable, entering);
        let exchange = Exchange {
            column,
            pivot,
            divisor: Divisor::new(self.denominator),
            is_plain: pivot == self.denominator,
        };
        replace_in(before, solved, &exchange);
        replace_in(after, solved, &exchange);
        self.denominator = pivot;
        true
    }
}

fn columns_of(alloc: Global, slots: &[Slot]) -> Result<Vec<Variable>, NoMemory> {
    let mut columns = Vec::with_capacity(alloc, slots.len())?;
    for slot in slots {
        columns.push(Variable::Slot(*slot))?;
    }
    Ok(columns)
}

fn lines_of(alloc: Global, rows: &[&Row], slots: &[Slot]) -> Result<Vec<TableauLine>, NoMemory> {
    let mut lines = Vec::with_capacity(alloc, rows.len())?;
    for (i, row) in rows.iter().enumerate() {
        lines.push(TableauLine::new(alloc, i, row, slots)?)?;
    }
    Ok(lines)
}

/// Puts the solved line in the place of its variable in each of the lines.
fn replace_in(lines: &mut [TableauLine], solved: &TableauLine, exchange: &Exchange) {
    for line in lines.iter_mut() {
        line.replace(solved, exchange);
    }
}
