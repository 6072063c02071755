//! When order rows are equal, and what a hash of them is made of: as their rows are.
ghost use Rattle.ded_model.specs.contracts.equality.rows.RowPartialEq.TheImpl.Laws.{laws-law as row_per};
ghost use Rattle.ded_model.specs.contracts.equality.rows.RowEq.TheImpl.Laws.{laws-law as row_equiv};
ghost use Rattle.ded_model.specs.contracts.equality.rows.RowHash.TheImpl.Laws.{respects_eq-law as row_fed};

use crate::atom::OrderAtom;
use ded_model::row::Row;
use std::hash::{Hash, Hasher};

impl PartialEq for OrderAtom {
    ghost eq = { ⟦<Row as PartialEq>⟧.eq };

    ghost laws = { row_per };

    fn eq(&self, other: &OrderAtom) -> bool {
        self.row() == other.row()
    }
}

impl Eq for OrderAtom {
    ghost laws = { row_equiv };
}

impl Hash for OrderAtom {
    ghost hash_input = { ⟦<Row as Hash>⟧.hash_input };

    ghost respects_eq = { row_fed };

    fn hash<H: Hasher>(&self, state: &mut H) {
        self.row().hash(state);
    }
}
