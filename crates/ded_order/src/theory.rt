//! Order rows as the atoms of a theory.
ghost use Rattle.std.specs.Prelude.{refl};
ghost use Rattle.ded_model.specs.Row.{row_holds, row_mentions};
ghost use Rattle.ded_model.specs.Cell.{row_cell};
ghost use Rattle.ded_model.specs.Lines.{row_lines};
ghost use Rattle.ded_elimination.specs.LinearAtoms.{is_rational};
ghost use Rattle.ded_model.proofs.Rows.{row_holds-same};
ghost use Rattle.ded_linear.specs.Laws.{cells_tell, slots_of_lines};
ghost use Rattle.ded_order.specs.OrderRows.{IsOrderAtom};
ghost use Rattle.ded_order.specs.Laws.{order_slots};
ghost use Rattle.ded_theory.specs.KindLaws.{none_fixed, nothing_fixed};

use crate::atom::OrderAtom;
use crate::lists::{eliminated, negated, rows_of};
use crate::mixing::Ordered;
use ded_linear::{bounds, refute};
use ded_model::memory::{NoMemory, Refused};
use ded_model::name::Name;
use ded_model::slot::{Slot, Sort};
use ded_model::tuple::Negated;
use ded_theory::{Eliminated, OfNumbers, Span, Theory, Verdict};
use std::alloc::Global;

/// Order over rational slots: the atoms are order rows in normal form.
pub struct Order {}

impl Theory for Order {
    type Atom = OrderAtom;

    ghost holds = { row_holds };

    ghost mentions = { row_mentions };

    ghost cell = { row_cell };

    ghost lines = { row_lines };

    ghost fixed = { nothing_fixed };

    ghost normal = { IsOrderAtom };

    ghost owned = { is_rational };

    ghost decides = { Unit {0} };

    fn owns(sort: Sort) -> bool {
        match sort {
            Sort::Rat => true,
            Sort::Text => false,
        }
    }

    fn copy(atom: &OrderAtom) -> Result<OrderAtom, NoMemory> {
        atom.copy()
    }

    fn rename(atom: &OrderAtom, map: &[(Slot, Slot)]) -> Result<OrderAtom, NoMemory> {
        Ok(OrderAtom::of(ded_row::rename(atom.row(), map)?))
    }

    fn negate(atom: &OrderAtom) -> Result<Negated<OrderAtom>, NoMemory> {
        Ok(negated(ded_row::negate(atom.row())?))
    }

    fn implies(one: &OrderAtom, other: &OrderAtom) -> bool {
        ded_elimination::implies(one.row(), other.row())
    }

    fn fixes(_atom: &OrderAtom) -> Option<(Slot, &Name)> {
        None
    }

    fn eliminate(
        alloc: Global,
        atoms: &[OrderAtom],
        slot: Slot,
    ) -> Result<Eliminated<OrderAtom>, Refused> {
        let rows = rows_of(alloc, atoms)?;
        let left = ded_elimination::eliminate::<Ordered>(alloc, &rows, slot)?;
        Ok(eliminated(alloc, left)?)
    }

    fn refute(alloc: Global, atoms: &[OrderAtom]) -> Result<Verdict, NoMemory> {
        let rows = rows_of(alloc, atoms)?;
        refute::<Ordered>(alloc, &rows)
    }

    fn bounds(alloc: Global, atoms: &[OrderAtom], slot: Slot) -> Result<Span, NoMemory> {
        let rows = rows_of(alloc, atoms)?;
        bounds::<Ordered>(alloc, &rows, slot)
    }

    ghost respects = { row_holds-same };

    ghost cells_tell = { cells_tell };

    ghost owned_slots = { order_slots };

    ghost fixed_holds = { none_fixed row_holds };

    ghost line_slots = { slots_of_lines };
}

impl OfNumbers for Order {
    ghost numbers = { refl };

    ghost no_texts = { refl };
}
