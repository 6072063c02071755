//! The variables of the search, and their values.

use ded_model::row::RowOp;
use ded_model::slot::Slot;
use std::cmp::Ordering;

/// A slot, or the sum of a row, by the number of the row and how its sum compares with 0.
#[derive(Clone, Copy)]
pub(crate) enum Variable {
    Slot(Slot),
    Row(usize, RowOp),
}

impl Variable {
    /// Whether the variable may have a value of this sign.
    pub fn may_be(self, sign: Ordering) -> bool {
        match self {
            Variable::Slot(_) => true,
            Variable::Row(_, RowOp::Zero) => sign.is_eq(),
            Variable::Row(_, RowOp::AtMost | RowOp::Below) => sign.is_le(),
        }
    }

    /// Whether the variable, which is 0, may change so that a line, where it has the coefficient, comes nearer to 0
    /// from that side.
    pub fn may_help(self, coefficient: i128, side: Ordering) -> bool {
        match self {
            Variable::Slot(_) => coefficient != 0,
            Variable::Row(_, RowOp::Zero) => false,
            Variable::Row(_, RowOp::AtMost | RowOp::Below) => coefficient.cmp(&0) == side,
        }
    }

    /// Whether the variable is the slot.
    pub fn is_slot(self, slot: Slot) -> bool {
        match self {
            Variable::Slot(own) => own.is_same(slot),
            Variable::Row(_, _) => false,
        }
    }

    /// Whether the variable, with a coefficient of this sign, gets to where it may go no further as another one goes to
    /// a side of 0.
    pub fn is_stopped(self, sign: Ordering, towards: Ordering) -> bool {
        match self {
            Variable::Slot(_) => false,
            Variable::Row(_, RowOp::Zero) => sign.is_ne(),
            Variable::Row(_, RowOp::AtMost | RowOp::Below) => sign == towards,
        }
    }

    /// The order of variables: slots before rows, each by their numbers.
    pub fn is_before(self, other: Variable) -> bool {
        match (self, other) {
            (Variable::Slot(slot), Variable::Slot(other)) => slot.number < other.number,
            (Variable::Row(i, _), Variable::Row(j, _)) => i < j,
            (Variable::Slot(_), Variable::Row(_, _)) => true,
            (Variable::Row(_, _), Variable::Slot(_)) => false,
        }
    }
}

/// A number and a multiple of an arbitrarily small positive one.
#[derive(Clone, Copy)]
pub(crate) struct Value {
    pub whole: i128,
    pub small: i128,
}

impl Value {
    /// How the value compares with 0.
    pub fn sign(self) -> Ordering {
        self.whole.cmp(&0).then(self.small.cmp(&0))
    }

    /// The value times a number, where one in that number is the arbitrarily small one.
    pub fn times(self, number: i128) -> i128 {
        self.whole.wrapping_mul(number).wrapping_add(self.small)
    }

    /// Into how many parts 1 has to be divided, so that with such a part as the arbitrarily small number a value below
    /// 0 stays at most 0.
    pub fn parts(self) -> i128 {
        if self.whole < 0 && self.small > 0 {
            self.small
                .wrapping_div(self.whole)
                .wrapping_neg()
                .wrapping_add(1)
        } else {
            1
        }
    }

    /// The negative.
    pub fn negative(self) -> Value {
        Value {
            whole: self.whole.wrapping_neg(),
            small: self.small.wrapping_neg(),
        }
    }
}
