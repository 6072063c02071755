//! Lines, eliminations and clashes grow with what they are made of, and short lines do not clash.
ghost use Rattle.std.specs.Prelude.{◌≡◌, ◌≤◌, ℕ, ◌+◌, ◌*◌, true, false, List};
ghost use Rattle.std.specs.List.{AllByRecursion};
ghost use Rattle.ded_model.specs.declared.slot.Slot.{Slot};
ghost use Rattle.ded_model.specs.declared.slot.Sort.TheVariants.{Rat};
ghost use Rattle.ded_model.specs.declared.name.Column.{Column};
ghost use Rattle.ded_model.specs.Point.{slot};
ghost use Rattle.ded_model.specs.Row.{Atom, row_mentions};
ghost use Rattle.ded_model.specs.Normal.{IsNormalTuple};
ghost use Rattle.ded_model.specs.Width.{tuples_length};
ghost use Rattle.ded_model.specs.Logic.{IsSorted};
ghost use Rattle.ded_model.specs.Form.{Form};
ghost use Rattle.ded_model.specs.Goal.{GoalForm, goal_mentions};
ghost use Rattle.ded_model.specs.PlanForm.{PlanForm, plan_mentions};
ghost use Rattle.ded_model.specs.Catalogue.{Catalogue};
ghost use Rattle.ded_model.specs.Lines.{Line, In, IsSubset, combination, lines_clash, elim_at, clash_at, tuples_lines};
ghost use Rattle.ded_model.specs.Lines.{IsLineWithin, AreWithin};
ghost use Rattle.ded_model.specs.Measure.{Measures, goal_lines, goal_clashes, plan_lines, plan_clashes, measures};
ghost use Rattle.ded_model.specs.Measure.{IsTight};
ghost use Rattle.ded_model.specs.Grown.{HaveMoreLines};
ghost use Rattle.ded_model.specs.Rational.{IsRationalGoal, IsRationalPlan};

/// What the elimination of a slot makes of some lines, it makes of more lines; and lines that clash at the slot clash
/// among more lines.
pub fn eliminations_grow()
    ensures lines { (s : Slot) (xs ys : List Line) → IsSubset xs ys → IsSubset (elim_at s xs) (elim_at s ys) }
    ensures clash { (s : Slot) (xs ys : List Line) → IsSubset xs ys → clash_at s xs ≡ true → clash_at s ys ≡ true }
{}

/// Lines and clashes of a goal grow with those of the names.
pub fn goals_grow()
    ensures lines { (M N : Measures) → ((n : List ℕ) → IsSubset (M n).lines (N n).lines)
        → (g : GoalForm) → IsSubset (goal_lines M g) (goal_lines N g) }
    ensures clash { (M N : Measures) → ((n : List ℕ) → IsSubset (M n).lines (N n).lines)
        → ((n : List ℕ) → (M n).clash ≡ true → (N n).clash ≡ true)
        → (g : GoalForm) → goal_clashes M g ≡ true → goal_clashes N g ≡ true }
{}

/// Lines and clashes of a plan grow with those of the names.
pub fn plans_grow()
    ensures lines { (M N : Measures) → ((n : List ℕ) → IsSubset (M n).lines (N n).lines)
        → (f : PlanForm) → IsSubset (plan_lines M f) (plan_lines N f) }
    ensures clash { (M N : Measures) → ((n : List ℕ) → IsSubset (M n).lines (N n).lines)
        → ((n : List ℕ) → (M n).clash ≡ true → (N n).clash ≡ true)
        → (f : PlanForm) → plan_clashes M f ≡ true → plan_clashes N f ≡ true }
{}

/// Lines and clashes of the names of a catalogue grow with the lines of its relations' tuples. So a formula that is
/// tight stays tight over a catalogue with fewer of these lines.
pub fn catalogues_grow()
    ensures lines { (c d : Catalogue) → HaveMoreLines c.entries d.entries → (n : List ℕ)
        → IsSubset (measures c n).lines (measures d n).lines }
    ensures clash { (c d : Catalogue) → HaveMoreLines c.entries d.entries → (n : List ℕ) → (measures c n).clash ≡ true
        → (measures d n).clash ≡ true }
    ensures tight { (c d : Catalogue) → HaveMoreLines c.entries d.entries → (h : List Column) (f : Form)
        → IsTight d h f → IsTight c h f }
{}

/// The lines of a goal and of a plan mention only rational slots that it mentions freely.
pub fn free_slots()
    ensures goal { (M : Measures) (g : GoalForm) → IsSorted g → IsRationalGoal g
        → (l : Line) (t : Slot) → In l (goal_lines M g) → row_mentions l t ≡ true
        → (goal_mentions g (slot t) ≡ true) × (t.sort ≡ Rat) }
    ensures plan { (M : Measures) (f : PlanForm) → IsSorted f → IsRationalPlan f
        → (l : Line) (t : Slot) → In l (plan_lines M f) → row_mentions l t ≡ true
        → (plan_mentions f (slot t) ≡ true) × (t.sort ≡ Rat) }
{}

/// The elimination of a slot makes lines that do not mention it, over slots that the lines mention.
pub fn eliminated_slots()
    ensures without { (s : Slot) (ls : List Line) (l : Line) → In l (elim_at s ls) → row_mentions l s ≡ false }
    ensures over { (s : Slot) (ls : List Line) (l : Line) (t : Slot) → In l (elim_at s ls) → row_mentions l t ≡ true
        → (m : Line) × In m ls × (row_mentions m t ≡ true) }
{}

/// Lines whose numbers have at most 63 digits do not clash.
pub fn short_lines()
    ensures two { (s : Slot) (l m : Line) → IsLineWithin 63 l → IsLineWithin 63 m → lines_clash s l m ≡ false }
    ensures set { (s : Slot) (ls : List Line) → AreWithin 63 ls → clash_at s ls ≡ false }
{}

/// A combination of lines whose numbers have at most b digits has numbers of at most 2b + 1 digits, and so has what an
/// elimination makes of a set of such lines.
pub fn lengths()
    ensures two { (s : Slot) (l m : Line) (b : ℕ) → IsLineWithin b l → IsLineWithin b m
        → AreWithin (2 * b + 1) (combination s l m) }
    ensures set { (s : Slot) (ls : List Line) (b : ℕ) → AreWithin b ls → AreWithin (2 * b + 1) (elim_at s ls) }
{}

/// The lines of normal tuples have as many digits as the rows of the tuples: where no number of the rows has more than
/// b digits, no number of the lines has, and the other way round.
pub fn tuple_lengths()
    ensures lines { (ts : List (List Atom)) (b : ℕ) → AllByRecursion IsNormalTuple ts → tuples_length ts ≤ b
        → AreWithin b (tuples_lines ts) }
    ensures rows { (ts : List (List Atom)) (b : ℕ) → AllByRecursion IsNormalTuple ts → AreWithin b (tuples_lines ts)
        → tuples_length ts ≤ b }
{}
