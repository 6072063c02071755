//! When tuples are equal.
ghost use Rattle.std.specs.Hash as fed;
ghost use Rattle.std.specs.Hash.{items_Alike};
ghost use Rattle.std.specs.Cmp.Lexicographic.{pointwise, lists_per, lists_equiv};
ghost use Rattle.ded_model.specs.Equality.{kinds_per, kinds_equiv, kinds_Alike};
ghost use Rattle.ded_model.specs.contracts.equality.rows.RowPartialEq.TheImpl.Laws.{laws-law as row_per};
ghost use Rattle.ded_model.specs.contracts.equality.rows.RowEq.TheImpl.Laws.{laws-law as row_equiv};
ghost use Rattle.ded_model.specs.contracts.equality.rows.RowHash.TheImpl.Laws.{respects_eq-law as row_fed};
ghost use Rattle.ded_model.specs.contracts.tuple.ThemeAtomPartialEq.TheImpl.Laws.{laws-law as theme_per};
ghost use Rattle.ded_model.specs.contracts.tuple.ThemeAtomEq.TheImpl.Laws.{laws-law as theme_equiv};
ghost use Rattle.ded_model.specs.contracts.tuple.ThemeAtomHash.TheImpl.Laws.{respects_eq-law as theme_fed};

use crate::tuple::{Atom, Tuple};
use std::hash::{Hash, Hasher};

impl PartialEq for Tuple {
    ghost eq = { pointwise ⟦<Atom as PartialEq>⟧.eq };

    ghost laws = { lists_per (kinds_per row_per theme_per) };

    fn eq(&self, other: &Tuple) -> bool {
        self.atoms.as_slice() == other.atoms.as_slice()
    }
}

impl Eq for Tuple {
    ghost laws = { lists_equiv (kinds_equiv row_equiv theme_equiv) };
}

impl Hash for Tuple {
    ghost hash_input = { fed.slice ⟦<Atom as Hash>⟧.hash_input };

    ghost respects_eq = { (items_Alike (kinds_Alike (record { fed = row_fed }) (record { fed = theme_fed }))).fed };

    fn hash<H: Hasher>(&self, state: &mut H) {
        self.atoms.as_slice().hash(state);
    }
}
