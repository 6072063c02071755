//! The atoms of the theory of dense order.
ghost use Rattle.std.specs.Prelude.{◌≡◌, true, false, MatchOption, IfOk};
ghost use Rattle.ded_model.specs.Normal.{IsNormalRow};
ghost use Rattle.ded_elimination.specs.LinearAtoms.{IsLinearAtom};
ghost use Rattle.ded_order.specs.OrderRows.{are_opposite_units, is_order_row, IsOrderAtom};

use ded_model::memory::NoMemory;
use ded_model::row::Row;
use std::marker::Model;

/// An order row in normal form. Contracts see the row.
#[derive(Drop)]
pub struct OrderAtom {
    row: Row,
}

impl Model for OrderAtom {
    ghost use Rattle.ded_model.specs.Constraint.{LinearConstraint};

    ghost Value = { LinearConstraint };

    ghost use Rattle.ded_order.specs.OrderRows.{IsOrderAtom};

    ghost view = { λ a. a.row };

    ghost invariant = { λ a. IsOrderAtom a.row };
}

impl OrderAtom {
    /// An equal row as an atom, none where the row is no order row.
    ///
    /// # Errors
    /// Out of memory.
    pub fn new(row: &Row) -> Result<Option<OrderAtom>, NoMemory>
        requires normal { IsLinearAtom row.now }
        ensures { IfOk result (λ o. MatchOption o (is_order_row row.now ≡ false) (λ a. (a ≡ row.now)
            × (is_order_row row.now ≡ true))) }
    {
        if is_order(row) {
            Ok(Some(OrderAtom { row: row.copy()? }))
        } else {
            Ok(None)
        }
    }

    /// The row. It does not allocate.
    pub fn row(&self) -> &Row
        ensures value { result.now ≡ self.now }
        ensures order { IsOrderAtom self.now }
    {
        &self.row
    }

    /// The row alone. It does not allocate.
    pub fn into_row(self) -> Row
        ensures value { result ≡ self }
        ensures order { IsOrderAtom self }
    {
        self.row
    }

    /// A row that is known to be an order row in normal form, as an atom. It does not allocate.
    pub fn of(row: Row) -> OrderAtom
        requires { IsNormalRow row × (is_order_row row ≡ true) }
        ensures value { result ≡ row }
        ensures order { IsOrderAtom result }
    {
        let _ = row.coefs.list(); // for its invariant
        OrderAtom { row }
    }

    /// An equal atom.
    ///
    /// # Errors
    /// Out of memory.
    pub fn copy(&self) -> Result<OrderAtom, NoMemory>
        ensures { IfOk result (λ a. a ≡ self.now) }
    {
        Ok(OrderAtom {
            row: self.row.copy()?,
        })
    }
}

/// Whether the row is an order row. It does not allocate.
pub fn is_order(row: &Row) -> bool
    ensures { result ≡ is_order_row row.now }
{
    match row.coefs.list() {
        [] | [_] => true,
        [(_, a), (_, b)] => row.constant == 0 && are_opposite_units(*a, *b),
        _ => false,
    }
}

/// Whether one number is 1 and the other one -1.
fn are_opposite_units(a: i128, b: i128) -> bool
    ensures { result ≡ are_opposite_units a b }
{
    (a == 1 && b == -1) || (a == -1 && b == 1)
}
