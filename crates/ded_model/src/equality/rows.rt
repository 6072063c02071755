//! When rows are equal.
ghost use Rattle.std.specs.Prelude.{◌++◌, ◌&&◌};
ghost use Rattle.std.specs.Ordering.{int_eq};
ghost use Rattle.std.specs.Hash as fed;
ghost use Rattle.std.specs.Hash.{on_Alike, same_Alike, and-Alike};
ghost use Rattle.std.specs.Cmp.{partial_equiv_from_equiv, signed_Decides, and_per, and_equiv, on_per, on_equiv};
ghost use Rattle.std.specs.Cmp.{int_eq_equiv};
ghost use Rattle.ded_model.specs.Constraint.{row_coefs, row_constant, row_op};
ghost use Rattle.ded_model.specs.contracts.row.RowOpPartialEq.TheImpl.Laws.{laws-law as op_per};
ghost use Rattle.ded_model.specs.contracts.row.RowOpEq.TheImpl.Laws.{laws-law as op_equiv};
ghost use Rattle.ded_model.specs.contracts.row.RowOpHash.TheImpl.Laws.{respects_eq-law as op_fed};
ghost use Rattle.ded_model.specs.contracts.equality.coefs.CoefsPartialEq.TheImpl.Laws.{laws-law as coefs_per};
ghost use Rattle.ded_model.specs.contracts.equality.coefs.CoefsEq.TheImpl.Laws.{laws-law as coefs_equiv};
ghost use Rattle.ded_model.specs.contracts.equality.coefs.CoefsHash.TheImpl.Laws.{respects_eq-law as coefs_fed};

use crate::row::{Coefs, Row, RowOp};
use std::hash::{Hash, Hasher};

impl PartialEq for Row {
    ghost eq = { λ r q. ⟦<Coefs as PartialEq>⟧.eq r.coefs q.coefs
        && (int_eq r.constant q.constant && ⟦<RowOp as PartialEq>⟧.eq r.op q.op) };

    ghost laws = { and_per (on_per row_coefs coefs_per)
        (and_per (on_per row_constant (partial_equiv_from_equiv int_eq_equiv)) (on_per row_op op_per)) };

    fn eq(&self, other: &Row) -> bool {
        self.coefs == other.coefs && (self.constant == other.constant && self.op == other.op)
    }
}

impl Eq for Row {
    ghost laws = { and_equiv (on_equiv row_coefs coefs_equiv)
        (and_equiv (on_equiv row_constant int_eq_equiv) (on_equiv row_op op_equiv)) };
}

impl Hash for Row {
    ghost hash_input = { λ r. ⟦<Coefs as Hash>⟧.hash_input r.coefs
        ++ (fed.i128 r.constant ++ ⟦<RowOp as Hash>⟧.hash_input r.op) };

    ghost respects_eq = { (and-Alike (on_Alike row_coefs (record { fed = coefs_fed }))
        (and-Alike (on_Alike row_constant (same_Alike fed.i128 signed_Decides))
        (on_Alike row_op (record { fed = op_fed })))).fed };

    fn hash<H: Hasher>(&self, state: &mut H) {
        self.coefs.hash(state);
        state.write_i128(self.constant);
        self.op.hash(state);
    }
}
