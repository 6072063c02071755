//! When lists of coefficients are equal.
ghost use Rattle.std.specs.Hash as fed;
ghost use Rattle.std.specs.Hash.{items_Alike, on_Alike, same_Alike, and-Alike};
ghost use Rattle.std.specs.Cmp.{partial_equiv_from_equiv, signed_Decides, and_per, and_equiv, on_per, on_equiv};
ghost use Rattle.std.specs.Cmp.{int_eq_equiv};
ghost use Rattle.std.specs.Cmp.Lexicographic.{pointwise, lists_per, lists_equiv};
ghost use Rattle.ded_model.specs.Constraint.{coef_slot, coef_number};
ghost use Rattle.ded_model.specs.contracts.slot.SlotPartialEq.TheImpl.Laws.{laws-law as slot_per};
ghost use Rattle.ded_model.specs.contracts.slot.SlotEq.TheImpl.Laws.{laws-law as slot_equiv};
ghost use Rattle.ded_model.specs.contracts.slot.SlotHash.TheImpl.Laws.{respects_eq-law as slot_fed};

use crate::row::Coefs;
use crate::slot::Slot;
use std::hash::{Hash, Hasher};

impl PartialEq for Coefs {
    ghost eq = { pointwise ⟦<(Slot, i128) as PartialEq>⟧.eq };

    ghost laws = { lists_per (and_per (on_per coef_slot slot_per)
        (on_per coef_number (partial_equiv_from_equiv int_eq_equiv))) };

    fn eq(&self, other: &Coefs) -> bool {
        self.list() == other.list()
    }
}

impl Eq for Coefs {
    ghost laws = { lists_equiv (and_equiv (on_equiv coef_slot slot_equiv) (on_equiv coef_number int_eq_equiv)) };
}

impl Hash for Coefs {
    ghost hash_input = { fed.slice ⟦<(Slot, i128) as Hash>⟧.hash_input };

    ghost respects_eq = { (items_Alike (and-Alike (on_Alike coef_slot (record { fed = slot_fed }))
        (on_Alike coef_number (same_Alike fed.i128 signed_Decides)))).fed };

    fn hash<H: Hasher>(&self, state: &mut H) {
        self.list().hash(state);
    }
}
