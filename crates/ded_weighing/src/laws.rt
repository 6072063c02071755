//! Laws of what shows that rows hold somewhere, or nowhere. Each is the contract of a function that does nothing.
ghost use Rattle.std.specs.Prelude.{◌≡◌, true, ℤ, List};
ghost use Rattle.ded_model.specs.declared.slot.Slot.{Slot};
ghost use Rattle.ded_model.specs.Constraint.{LinearConstraint};
ghost use Rattle.ded_model.specs.Cell.{conj_holds, HoldsSomewhere, HoldsNowhere};
ghost use Rattle.ded_model.specs.Row.{row_holds};
ghost use Rattle.ded_weighing.specs.Weighing.{refutes};
ghost use Rattle.ded_weighing.specs.Meeting.{meets};

/// Rows of which a sum of multiples holds nowhere hold nowhere together.
pub fn refutations()
    ensures { (ms : List ℤ) (rs : List LinearConstraint) → refutes ms rs ≡ true
        → HoldsNowhere (conj_holds row_holds rs) }
{}

/// Rows that hold at a point which is given as data hold somewhere.
pub fn witnesses()
    ensures { (vs : List (Slot × ℤ)) (d : ℤ) (rs : List LinearConstraint) → meets vs d rs ≡ true
        → HoldsSomewhere (conj_holds row_holds rs) }
{}
