//! Rows as the atoms of a theory.
ghost use Rattle.std.specs.Prelude.{refl};
ghost use Rattle.ded_model.specs.Row.{row_holds, row_mentions};
ghost use Rattle.ded_model.specs.Cell.{row_cell};
ghost use Rattle.ded_model.specs.Lines.{row_lines};
ghost use Rattle.ded_elimination.specs.LinearAtoms.{IsLinearAtom, is_rational};
ghost use Rattle.ded_model.proofs.Rows.{row_holds-same};
ghost use Rattle.ded_linear.specs.Laws.{cells_tell, owned_slots, slots_of_lines};
ghost use Rattle.ded_theory.specs.KindLaws.{none_fixed, nothing_fixed};

use crate::pruning::pruned;
use crate::{bounding, verdict};
use ded_elimination::CheckedCombination;
use ded_model::memory::{NoMemory, Refused};
use ded_model::name::Name;
use ded_model::row::Row;
use ded_model::slot::{Slot, Sort};
use ded_model::tuple::Negated;
use ded_theory::{Eliminated, OfNumbers, Span, Theory, Verdict};
use std::alloc::Global;

/// Linear constraints over rational slots: the atoms are rows in normal form.
pub struct Linear {}

impl Theory for Linear {
    type Atom = Row;

    ghost holds = { row_holds };

    ghost mentions = { row_mentions };

    ghost cell = { row_cell };

    ghost lines = { row_lines };

    ghost fixed = { nothing_fixed };

    ghost normal = { IsLinearAtom };

    ghost owned = { is_rational };

    ghost decides = { ⊥ };

    fn owns(sort: Sort) -> bool {
        match sort {
            Sort::Rat => true,
            Sort::Text => false,
        }
    }

    fn copy(atom: &Row) -> Result<Row, NoMemory> {
        atom.copy()
    }

    fn rename(atom: &Row, map: &[(Slot, Slot)]) -> Result<Row, NoMemory> {
        ded_row::rename(atom, map)
    }

    fn negate(atom: &Row) -> Result<Negated<Row>, NoMemory> {
        ded_row::negate(atom)
    }

    fn implies(one: &Row, other: &Row) -> bool {
        ded_elimination::implies(one, other)
    }

    fn fixes(_atom: &Row) -> Option<(Slot, &Name)> {
        None
    }

    fn eliminate(alloc: Global, atoms: &[Row], slot: Slot) -> Result<Eliminated<Row>, Refused> {
        match ded_elimination::eliminate::<CheckedCombination>(alloc, atoms, slot)? {
            Eliminated::Never => Ok(Eliminated::Never),
            Eliminated::Conj(rows) => Ok(Eliminated::Conj(pruned(alloc, rows, atoms.len())?)),
        }
    }

    fn refute(alloc: Global, atoms: &[Row]) -> Result<Verdict, NoMemory> {
        verdict::refute::<CheckedCombination>(alloc, atoms)
    }

    fn bounds(alloc: Global, atoms: &[Row], slot: Slot) -> Result<Span, NoMemory> {
        bounding::bounds::<CheckedCombination>(alloc, atoms, slot)
    }

    ghost respects = { row_holds-same };

    ghost cells_tell = { cells_tell };

    ghost owned_slots = { owned_slots };

    ghost fixed_holds = { none_fixed row_holds };

    ghost line_slots = { slots_of_lines };
}

impl OfNumbers for Linear {
    ghost numbers = { refl };

    ghost no_texts = { refl };
}
