//! Rows and text atoms read as atoms of a theory.
ghost use Rattle.std.specs.Prelude.{IfOk, ◌≡◌, true};
ghost use Rattle.ded_model.specs.Normal.{IsNormalAtom};
ghost use Rattle.ded_atoms.specs.Laws.{IsAnyRow, IsOfRows, line_in_order, order_line_in_order, kinds_in_order};
ghost use Rattle.ded_atoms.specs.Orders.{IsOrder};
ghost use Rattle.ded_atoms.specs.Reading.{StandsFor};

use crate::reading::{AtomRef, OfTuples};
use ded_linear::Linear;
use ded_model::laws::sameness::{equal_parts, equal_tuples};
use ded_model::memory::NoMemory;
use ded_model::row::Row;
use ded_model::tuple::{Atom, BothAtom};
use ded_order::{Order, OrderAtom};
use ded_theme::Theme;
use ded_theory::{Both, OfNumbers, Theory};
use std::hash::Hash;

/// A theory of numbers whose atoms stand for rows.
pub trait OfRows: OfNumbers<Atom: Eq + Hash> {
    ghost use Rattle.ded_model.specs.declared.tuple.BothAtom.TheVariants.{First};
    ghost use Rattle.ded_model.specs.Coefs.{AreCoefs};
    ghost use Rattle.ded_model.specs.Constraint.{LinearConstraint};
    ghost use Rattle.ded_model.specs.Lines.{Line, In};

    /// Whether a normal row can be read as an atom.
    ghost rows: { LinearConstraint → Type 0 };

    /// The atom that stands for a normal row.
    ///
    /// # Errors
    /// Out of memory.
    fn from_row(row: &Row) -> Result<Self::Atom, NoMemory>
        requires normal { IsNormalAtom (First row.now) }
        requires rows { rows row.now }
        ensures stands { IfOk result (λ a. StandsFor Self.holds Self.mentions Self.lines a (First row.now)) }
        ensures normal { IfOk result Self.normal };

    /// The row that an atom stands for. It doesn't allocate.
    fn row(atom: &Self::Atom) -> &Row
        ensures { StandsFor Self.holds Self.mentions Self.lines atom.now (First result.now) };

    /// Atoms that `==` tells to be equal are the same. It does nothing.
    fn equal_atoms()
        ensures { (a b : Self.Atom) → Self.Atom.eq a b ≡ true → a ≡ b };

    /// The lines of an atom in normal form have rational slots in order.
    ghost lines_in_order: { (a : Self.Atom) (l : Line) → Self.normal a → In l (Self.lines a) → AreCoefs l.coefs };
}

impl OfRows for Linear {
    ghost rows = { IsAnyRow };

    fn from_row(row: &Row) -> Result<Row, NoMemory> {
        row.copy()
    }

    fn row(atom: &Row) -> &Row {
        atom
    }

    fn equal_atoms() {
        equal_tuples();
    }

    ghost lines_in_order = { line_in_order };
}

impl OfRows for Order {
    ghost rows = { IsOrder };

    fn from_row(row: &Row) -> Result<OrderAtom, NoMemory> {
        Ok(OrderAtom::of(row.copy()?))
    }

    fn row(atom: &OrderAtom) -> &Row {
        atom.row()
    }

    fn equal_atoms() {
        equal_tuples();
    }

    ghost lines_in_order = { order_line_in_order };
}

impl<N: OfRows> OfTuples for Both<N, Theme> {
    ghost reads = { IsOfRows N.rows };

    fn read(atom: &Atom) -> Result<BothAtom<N::Atom, <Theme as Theory>::Atom>, NoMemory> {
        match atom {
            BothAtom::First(row) => Ok(BothAtom::First(N::from_row(row)?)),
            BothAtom::Second(theme) => Ok(BothAtom::Second(theme.copy()?)),
        }
    }

    fn lent(atom: &BothAtom<N::Atom, <Theme as Theory>::Atom>) -> AtomRef<'_> {
        match atom {
            BothAtom::First(row) => AtomRef::Linear(N::row(row)),
            BothAtom::Second(theme) => AtomRef::Theme(theme),
        }
    }

    fn equal_atoms() {
        N::equal_atoms();
        equal_parts();
    }

    ghost line_coefs = { kinds_in_order N.normal N.lines N.lines_in_order };
}
