//! How two rows are combined so that a slot falls out.
//!
//! An elimination combines rows two by two. What two rows give is fixed; how it is computed, and whether it is ever
//! refused because a number gets too long, depends on the rows. So an elimination takes the combination as a parameter,
//! a [`Mixing`], and so does what is built on it. [`CheckedCombination`] combines any two rows. Rows of a kind whose
//! combinations multiply nothing can have a mixing of their own, which is never refused; whatever is written over any
//! [`Mixing`] is then exact for them.
ghost use Rattle.std.specs.Prelude.{◌≡◌, true, false, IfOk, IsErrOf};
ghost use Rattle.ded_model.specs.declared.memory.Refused.TheVariants.{Wide};
ghost use Rattle.ded_model.specs.Constraint.{LinearConstraint};
ghost use Rattle.ded_model.specs.Coefs.{coef_at};
ghost use Rattle.ded_model.specs.Normal.{IsNormalRow};
ghost use Rattle.ded_model.specs.Lines.{Line, In, row_lines, lines_clash};
ghost use Rattle.ded_row.specs.Mixing.{BoundsAbove, BoundsBelow, mix_of};
ghost use Rattle.ded_elimination.specs.LinearAtoms.{IsLinearAtom};

use ded_model::memory::Refused;
use ded_model::row::Row;
use ded_model::slot::Slot;

/// A way of combining two rows so that a slot falls out.
pub trait Mixing {
    /// Which rows are combined. The combination of two such rows is one again.
    ghost rows: { LinearConstraint → Type 0 };

    /// Whether the combination of such rows is never refused for the length of its numbers.
    ghost decides: { Type 0 };

    /// Adds the two rows, each times the size of the other's coefficient of the slot, so that the slot falls out, and
    /// gives the normal form of the sum. The first row bounds the slot from above, the second one from below; an
    /// equality counts with either sign. Where the sum has a slot, the lines of the two rows don't clash.
    ///
    /// # Errors
    /// `Wide` only where the lines of the two rows clash, and never of a mixing that decides; otherwise out of memory.
    fn mix(r1: &Row, r2: &Row, slot: Slot) -> Result<Row, Refused>
        requires above { BoundsAbove r1.now.op (coef_at r1.now.coefs slot) }
        requires below { BoundsBelow r2.now.op (coef_at r2.now.coefs slot) }
        requires normal { IsLinearAtom r1.now × IsLinearAtom r2.now }
        requires rows { rows r1.now × rows r2.now }
        ensures value { IfOk result (λ r. r ≡ mix_of slot r1.now r2.now) }
        ensures normal { IfOk result (λ r. IsNormalRow r) }
        ensures rows { IfOk result rows }
        ensures short { IfOk result (λ r. (l : Line) → In l (row_lines r) → lines_clash slot r1.now r2.now ≡ false) }
        ensures wide { IsErrOf result Wide → lines_clash slot r1.now r2.now ≡ true }
        ensures never_wide { decides → IsErrOf result Wide → ⊥ };
}

/// The combination of any two rows, refused where a product or a sum is too long.
pub struct CheckedCombination {}

impl Mixing for CheckedCombination {
    ghost rows = { λ r. Unit {0} };

    ghost decides = { ⊥ };

    fn mix(r1: &Row, r2: &Row, slot: Slot) -> Result<Row, Refused> {
        ded_row::mix(r1, r2, slot)
    }
}
