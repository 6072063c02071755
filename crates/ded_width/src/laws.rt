//! What is narrow is tight.
//!
//! What is orderly is tight.
ghost use Rattle.std.specs.Prelude.{◌≡◌, ◌+◌, ◌≤◌, max, false, List, ◌≢◌, []};
ghost use Rattle.std.specs.List.{AllByRecursion};
ghost use Rattle.ded_model.specs.declared.name.Column.{Column};
ghost use Rattle.ded_model.specs.Form.{Form};
ghost use Rattle.ded_model.specs.Goal.{GoalForm};
ghost use Rattle.ded_model.specs.PlanForm.{PlanForm};
ghost use Rattle.ded_model.specs.Row.{Atom};
ghost use Rattle.ded_model.specs.Catalogue.{Catalogue};
ghost use Rattle.ded_model.specs.Entries.{known};
ghost use Rattle.ded_model.specs.Known.{KnownNames, IsAccepted, IsTupleOver, IsWellFormed, has_missorted};
ghost use Rattle.ded_model.specs.Lines.{AreWithin, IsSubset, tuples_lines, Line, In};
ghost use Rattle.ded_model.specs.Slotted.{goal_of};
ghost use Rattle.ded_model.specs.Measure.{Measures, goal_b, goal_rank, goal_lines, goal_clashes, plan_b, plan_rank};
ghost use Rattle.ded_model.specs.Measure.{plan_lines, plan_clashes, measures, IsNarrow, IsTight};
ghost use Rattle.ded_model.specs.Width.{IsNarrowWith, IsNarrowList, rational_columns};
ghost use Rattle.ded_width.specs.Reach.{AreInReach, AreWithinReach, IsAscendingGoal, IsAscendingPlan};
ghost use Rattle.ded_model.specs.Logic.{some_atom};
ghost use Rattle.ded_model.specs.LongRows.{is_long_atom};
ghost use Rattle.ded_model.specs.Normal.{IsNormalTuple};
ghost use Rattle.ded_model.specs.Plain.{IsPlain};
ghost use Rattle.ded_model.specs.ShortRows.{HasShortRows};
ghost use Rattle.ded_width.specs.Orderly.{IsOrderly, IsShortReach, IsOrdered, AreOrdered, reached_points};

/// The lines of a plan have less than (b + 1) * 2 ^ q digits, b its greatest length and q its rank. Where that is
/// narrow, no elimination in the plan clashes.
pub fn plans()
    ensures within { (M : Measures) → AreInReach M → (f : PlanForm) → IsAscendingPlan f
        → AreWithinReach (plan_b M f) (plan_rank M f) (plan_lines M f) }
    ensures tight { (M : Measures) → AreInReach M → (f : PlanForm) → IsAscendingPlan f
        → IsNarrowWith (plan_b M f) (plan_rank M f) → plan_clashes M f ≡ false }
{}

/// The lines of a goal have less than (b + 1) * 2 ^ q digits, b its greatest length and q its rank. Where these are
/// narrow, no elimination in the goal clashes.
pub fn goals()
    ensures within { (M : Measures) → AreInReach M → (g : GoalForm) → IsAscendingGoal g
        → AreWithinReach (goal_b M g) (goal_rank M g) (goal_lines M g) }
    ensures tight { (M : Measures) → AreInReach M → (g : GoalForm) → IsAscendingGoal g
        → IsNarrowWith (goal_b M g) (goal_rank M g) → goal_clashes M g ≡ false }
{}

/// The goal of a formula in which no text stands where a number has to has ascending rows and sums.
pub fn accepted_goals()
    ensures ascending { (K : KnownNames) (h : List Column) (f : Form) → has_missorted K h f ≡ false
        → IsAscendingGoal (goal_of h f) }
{}

/// The lines of a name of a well formed catalogue, be it a relation, a view, or the closure or the interior of one,
/// have less than (b + 1) * 2 ^ q digits, b the greatest length of the name and q its rank. Where these are narrow, the
/// name has no clash.
pub fn names()
    ensures reach { (c : Catalogue) → IsWellFormed c → AreInReach (measures c) }
{}

/// The lines of a formula that is accepted over a well formed catalogue have less than (b + 1) * 2 ^ q digits, b its
/// greatest length and q its rank. Where the formula is narrow it is tight, and no elimination in a plan clashes that
/// has at most its length and rank.
pub fn formulas()
    ensures within { (c : Catalogue) → IsWellFormed c → (h : List Column) (f : Form) → IsAccepted (known c) h f
        → AreWithinReach (goal_b (measures c) (goal_of h f)) (goal_rank (measures c) (goal_of h f))
        (goal_lines (measures c) (goal_of h f)) }
    ensures tight { (c : Catalogue) → IsWellFormed c → (h : List Column) (f : Form) → IsAccepted (known c) h f
        → IsNarrow c h f → IsTight c h f }
    ensures plans { (c : Catalogue) → IsWellFormed c → (h : List Column) (f : Form) → IsNarrow c h f
        → (plan : PlanForm) → IsAscendingPlan plan
        → plan_b (measures c) plan ≤ goal_b (measures c) (goal_of h f)
        → plan_rank (measures c) plan ≤ goal_rank (measures c) (goal_of h f)
        → plan_clashes (measures c) plan ≡ false }
{}

/// The tuples of an answer to a formula that is accepted over a well formed catalogue are narrow where (b + 1) * 2 ^ (q
/// + k) is at most 128, for the greatest length b and the rank q of the formula and the k rational columns of its
/// heading. So none of them has anything superfluous.
pub fn answers()
    ensures { (c : Catalogue) → IsWellFormed c → (h : List Column) (f : Form) → IsAccepted (known c) h f
        → IsNarrowWith (goal_b (measures c) (goal_of h f)) (goal_rank (measures c) (goal_of h f) + rational_columns h)
        → (ts : List (List Atom)) → AllByRecursion (IsTupleOver h) ts
        → IsSubset (tuples_lines ts) (goal_lines (measures c) (goal_of h f))
        → AllByRecursion IsNarrowList ts }
{}

/// A formula that is accepted over a well formed catalogue is tight where it is orderly and each row that it reaches
/// has numbers of at most 63 digits, whatever its rank. Its lines are order lines that are as short, and those of one
/// slot have the coefficient and the constant of a row that the formula reaches, up to the sign of both.
pub fn orderly_formulas()
    ensures tight { (c : Catalogue) → IsWellFormed c → (h : List Column) (f : Form) → IsAccepted (known c) h f
        → IsOrderly c h f → IsShortReach c h f → IsTight c h f }
    ensures lines { (c : Catalogue) → IsWellFormed c → (h : List Column) (f : Form) → IsAccepted (known c) h f
        → IsOrderly c h f → IsShortReach c h f
        → (l : Line) → In l (goal_lines (measures c) (goal_of h f))
        → (l.coefs ≢ []) × IsOrdered (reached_points c h f) l }
{}

/// So normal tuples whose lines are among those of such a formula have order rows alone, which are as short. A row with
/// coefficients compares two slots, or has the coefficient and the constant of a row with one slot that the formula
/// reaches, up to the sign of both.
pub fn orderly_rows()
    ensures { (c : Catalogue) → IsWellFormed c → (h : List Column) (f : Form) → IsAccepted (known c) h f
        → IsOrderly c h f → IsShortReach c h f
        → (ts : List (List Atom)) → AllByRecursion IsNormalTuple ts
        → IsSubset (tuples_lines ts) (goal_lines (measures c) (goal_of h f))
        → AllByRecursion (AreOrdered (reached_points c h f)) ts }
{}

/// The stored rows of a well formed catalogue have numbers of at most 63 digits. So each row that a formula reaches
/// has, where no comparison and no argument has a long row, in the formula and in those of the views.
pub fn short_reach()
    ensures { (c : Catalogue) → IsWellFormed c → AllByRecursion HasShortRows c.entries → (h : List Column) (f : Form)
        → IsAccepted (known c) h f
        → IsPlain f → some_atom is_long_atom f ≡ false → IsShortReach c h f }
{}

/// The lines of a formula that is accepted over a well formed catalogue have numbers of at most 127 digits, or of as
/// many as its greatest length, where that is more: an elimination combines two lines only where they don't clash.
/// Where no comparison and no argument has a long row, in the formula and in those of the views, the greatest length is
/// at most 63, so that no line has a number of more than 127 digits.
pub fn short_lines()
    ensures longest { (c : Catalogue) → IsWellFormed c → (h : List Column) (f : Form) → IsAccepted (known c) h f
        → AreWithin (max 127 (goal_b (measures c) (goal_of h f))) (goal_lines (measures c) (goal_of h f)) }
    ensures lengths { (c : Catalogue) → IsWellFormed c → AllByRecursion HasShortRows c.entries
        → (h : List Column) (f : Form)
        → IsAccepted (known c) h f → IsPlain f → some_atom is_long_atom f ≡ false
        → goal_b (measures c) (goal_of h f) ≤ 63 }
    ensures short { (c : Catalogue) → IsWellFormed c → AllByRecursion HasShortRows c.entries
        → (h : List Column) (f : Form)
        → IsAccepted (known c) h f → IsPlain f → some_atom is_long_atom f ≡ false
        → AreWithin 127 (goal_lines (measures c) (goal_of h f)) }
{}
