//! What the readers of formulas and the makers of goals rest on.
ghost use Rattle.std.specs.Prelude.{◌≡◌, ◌↔◌, ℕ, ◌<◌, true, false, List, []};
ghost use Rattle.ded_model.specs.declared.name.Column.{Column};
ghost use Rattle.ded_model.specs.Point.{Key, stands_in};
ghost use Rattle.ded_model.specs.Row.{at_slot};
ghost use Rattle.ded_model.specs.Logic.{IsSorted};
ghost use Rattle.ded_model.specs.Form.{Form};
ghost use Rattle.ded_model.specs.Goal.{goal_mentions};
ghost use Rattle.ded_model.specs.Rational.{IsRationalGoal};
ghost use Rattle.ded_model.specs.Value.{Argument};
ghost use Rattle.ded_model.specs.Catalogue.{Catalogue, at_slots, at_names, origin, Holds, GoalHolds, IsTruth};
ghost use Rattle.ded_model.specs.Known.{KnownNames, has_twice, has_unbound, has_missorted, known_of, IsAccepted};
ghost use Rattle.ded_model.specs.Known.{heading_slots};
ghost use Rattle.ded_model.specs.Slotted.{goal_of};

/// A goal holds of values at the slots of its heading exactly where the formula holds of them at the heading's names.
/// Of the formula this asks that no column name comes twice, that each variable is bound, and that no text stands where
/// a number has to, or a number where a text has to. It asks nothing of the catalogue, and nothing of the values: a
/// list that is too short leaves the other columns absent at both points. So a closed formula that is accepted is true
/// exactly where its goal is.
pub fn goals_mean_formulas()
    ensures values { (c : Catalogue) (known : KnownNames) (h : List Column) (f : Form)
        → has_twice h ≡ false → has_unbound h f ≡ false → has_missorted known h f ≡ false
        → (d : ℕ) (xs : List Argument) → 0 < d
        → Holds c f (record { den = d; coords = at_names h xs })
        ↔ GoalHolds c (goal_of h f) (record { den = d; coords = at_slots 0 h xs }) }
    ensures accepted { (c : Catalogue) (h : List Column) (f : Form) → IsAccepted (known_of c.entries) h f
        → (d : ℕ) (xs : List Argument) → 0 < d
        → Holds c f (record { den = d; coords = at_names h xs })
        ↔ GoalHolds c (goal_of h f) (record { den = d; coords = at_slots 0 h xs }) }
    ensures closed { (c : Catalogue) (f : Form) → IsAccepted (known_of c.entries) [] f → IsTruth c f
        ↔ GoalHolds c (goal_of [] f) origin }
{}

/// Each quantifier of a goal ranges over what its slot's sort says, of every formula. Where no text stands in the place
/// of a number, the goal's rows and sums are over rational slots. Where each variable is bound, the goal mentions
/// freely only slots of its heading.
pub fn goals_are_sorted()
    ensures sorted { (h : List Column) (f : Form) → IsSorted (goal_of h f) }
    ensures rational { (known : KnownNames) (h : List Column) (f : Form) → has_missorted known h f ≡ false
        → IsRationalGoal (goal_of h f) }
    ensures free { (h : List Column) (f : Form) → has_unbound h f ≡ false
        → (k : Key) → goal_mentions (goal_of h f) k ≡ true → at_slot (stands_in (heading_slots 0 h)) k ≡ true }
{}
