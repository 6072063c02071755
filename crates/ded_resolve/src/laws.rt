//! What is enough for the calls of this crate, and what is true of the goals of formulas.
ghost use Rattle.std.specs.Prelude.{◌≡◌, ◌+◌, ◌<◌, ◌^◌, length, false, List};
ghost use Rattle.ded_model.specs.declared.name.Column.{Column};
ghost use Rattle.ded_model.specs.Logic.{quantifiers, some_below};
ghost use Rattle.ded_model.specs.Form.{Form};
ghost use Rattle.ded_model.specs.Known.{KnownNames, IsAccepted, is_many, has_missorted, scope_of};
ghost use Rattle.ded_model.specs.NormalGoal.{IsNormalGoal};
ghost use Rattle.ded_model.specs.Slotted.{goal_of};
ghost use Rattle.ded_resolve.specs.TextSums.{has_text_sum};
ghost use Rattle.ded_resolve.specs.Tuples.{is_missorted_comparison};

/// A formula in which no text stands where a number has to, and no number where a text has to, whatever is known of
/// names, has no sum with a text variable and no comparison of a text with a number. One that has not too many columns
/// and quantifiers has few enough for the numbers of slots.
pub fn accepted_formulas()
    ensures sums { (known : KnownNames) (h : List Column) (f : Form) → has_missorted known h f ≡ false
        → some_below has_text_sum (scope_of h) f ≡ false }
    ensures comparisons { (known : KnownNames) (h : List Column) (f : Form) → has_missorted known h f ≡ false
        → some_below is_missorted_comparison (scope_of h) f ≡ false }
    ensures few { (h : List Column) (f : Form) → is_many h f ≡ false → length h + quantifiers f < 2 ^ 32 }
{}

/// The goal of a formula over a heading is normal, where no comparison has a text in the place of a number, or a number
/// in the place of a text. So the goal of each accepted formula is.
pub fn normal_goals()
    ensures sorted { (h : List Column) (f : Form) → some_below is_missorted_comparison (scope_of h) f ≡ false
        → IsNormalGoal (goal_of h f) }
    ensures accepted { (known : KnownNames) (h : List Column) (f : Form) → IsAccepted known h f
        → IsNormalGoal (goal_of h f) }
{}
